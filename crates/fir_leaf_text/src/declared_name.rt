//! The name of a declaration of a module, told by how many are declared before it (FIRRTL spec, "Modules").

ghost use Rattle.std.specs.Prelude.{◌≡◌, ◌∷◌, [], map, option_map, slice_get};
ghost use Rattle.fir_ast.specs.declared.place.Place.{Place};
ghost use Rattle.fir_ast.specs.working.Views.{block_of, module_of, stmt_of};
ghost use Rattle.fir_names.specs.working.Parts.{when_view};
ghost use Rattle.fir_leaf_text.specs.working.DeclaredNames.{IsSearched, names_in, names_in_block, names_in_module};

use fir_ast::{Ident, Module, Stmt, When};
use fir_base::Name;

/// Where a search for a declaration has come.
#[derive(Clone, Copy)]
enum Search<'a> {
    /// To its name.
    Found(&'a Name),
    /// Behind what was searched, with so many declarations before it still to be passed.
    Left(usize),
}

/// The name of the declaration before which so many stand, in the order of the text.
pub fn declared_name(part: &Module, position: usize) -> Option<&Name>
    ensures { option_map (λ name. name.now) result ≡ slice_get (names_in_module (module_of part.now)) position }
{
    let ports = part.ports.as_slice();
    if position < ports.len() {
        return Some(&ports[position].ident.name);
    }
    match name_in_block(&part.body, position - ports.len()) {
        Search::Found(name) => Some(name),
        Search::Left(_) => None,
    }
}

/// The search in a block.
#[cycle(names)]
fn name_in_block(body: &[Stmt], position: usize) -> Search<'_>
    ensures { IsSearched (names_in_block (block_of (map stmt_of body.now))) position result }
{
    let mut left = position;
    for statement in body {
        match name_in_statement(statement, left) {
            Search::Found(name) => return Search::Found(name),
            Search::Left(behind) => left = behind,
        }
    }
    Search::Left(left)
}

/// In a statement, which declares one name, none, or those of its blocks.
#[cycle(names)]
fn name_in_statement(statement: &Stmt, position: usize) -> Search<'_>
    ensures { IsSearched (names_in (stmt_of statement.now)) position result }
{
    match statement {
        Stmt::Wire(_, ident, _, _) => name_of(ident, position),
        Stmt::Reg(_, register) => name_of(&register.ident, position),
        Stmt::Node(_, ident, _) => name_of(ident, position),
        Stmt::Inst(_, ident, _) => name_of(ident, position),
        Stmt::Mem(_, memory) => name_of(&memory.ident, position),
        Stmt::When(_, when) => name_in_when(when, position),
        Stmt::Connect(_, _, _)
        | Stmt::PartialConnect(_, _, _)
        | Stmt::Invalid(_, _)
        | Stmt::Skip(_) => Search::Left(position),
    }
}

/// In the first block of a when, and then in the second.
#[cycle(names)]
fn name_in_when(when: &When, position: usize) -> Search<'_>
    ensures { (place : Place) → IsSearched (names_in (when_view when.now place)) position result }
{
    match name_in_block(&when.then_block, position) {
        Search::Found(name) => Search::Found(name),
        Search::Left(behind) => name_in_block(&when.else_block, behind),
    }
}

/// In a declaration of that name.
fn name_of(ident: &Ident, position: usize) -> Search<'_>
    ensures { IsSearched (ident.now.name ∷ []) position result }
{
    if position == 0 {
        return Search::Found(&ident.name);
    }
    Search::Left(position - 1)
}
