//! The names of all that a module declares, in the order of the text (FIRRTL spec, "Modules").

ghost use Rattle.std.specs.Prelude.{◌≡◌, [], ◌∷◌, ◌++◌, IfOk, OnOk, map};
ghost use Rattle.fir_ast.specs.declared.place.Place.{Place};
ghost use Rattle.fir_ast.specs.working.Views.{block_of, module_of, stmt_of};
ghost use Rattle.fir_names.specs.working.Parts.{when_view};
ghost use Rattle.fir_leaf_text.specs.working.DeclaredNames.{names_in, names_in_block, names_in_module};

use fir_ast::{Ident, Module, Stmt, When};
use fir_base::{MemoryOut, Name};
use std::alloc::Global;

/// Copies the names of the ports, and then those of the statements.
pub fn declared_names(alloc: Global, part: &Module) -> Result<Vec<Name>, MemoryOut>
    ensures { IfOk result (λ names. names.items ≡ names_in_module (module_of part.now)) }
{
    let mut names = Vec::new(alloc);
    for port in part.ports.as_slice() {
        push_name(alloc, &port.ident, &mut names)?;
    }
    push_names_of_block(alloc, &part.body, &mut names)?;
    Ok(names)
}

/// Pushes those of a block.
#[cycle(names)]
fn push_names_of_block(alloc: Global, body: &[Stmt], names: &mut Vec<Name>) -> Result<(), MemoryOut>
    ensures { OnOk result (names.new.items ≡ names.old.items ++ names_in_block (block_of (map stmt_of body.now))) }
{
    for statement in body {
        push_names_of_statement(alloc, statement, names)?;
    }
    Ok(())
}

/// Pushes that of a statement, or those of its blocks.
#[cycle(names)]
fn push_names_of_statement(
    alloc: Global,
    statement: &Stmt,
    names: &mut Vec<Name>,
) -> Result<(), MemoryOut>
    ensures { OnOk result (names.new.items ≡ names.old.items ++ names_in (stmt_of statement.now)) }
{
    match statement {
        Stmt::Wire(_, ident, _, _) => push_name(alloc, ident, names),
        Stmt::Reg(_, register) => push_name(alloc, &register.ident, names),
        Stmt::Node(_, ident, _) => push_name(alloc, ident, names),
        Stmt::Inst(_, ident, _) => push_name(alloc, ident, names),
        Stmt::Mem(_, memory) => push_name(alloc, &memory.ident, names),
        Stmt::When(_, when) => push_names_of_when(alloc, when, names),
        Stmt::Connect(_, _, _)
        | Stmt::PartialConnect(_, _, _)
        | Stmt::Invalid(_, _)
        | Stmt::Skip(_) => Ok(()),
    }
}

/// Pushes those of the first block of a when, and then those of the second.
#[cycle(names)]
fn push_names_of_when(alloc: Global, when: &When, names: &mut Vec<Name>) -> Result<(), MemoryOut>
    ensures { OnOk result ((place : Place) → names.new.items ≡ names.old.items ++ names_in (when_view when.now place)) }
{
    push_names_of_block(alloc, &when.then_block, names)?;
    push_names_of_block(alloc, &when.else_block, names)
}

/// Pushes a copy of the name.
fn push_name(alloc: Global, ident: &Ident, names: &mut Vec<Name>) -> Result<(), MemoryOut>
    ensures { OnOk result (names.new.items ≡ names.old.items ++ ident.now.name ∷ []) }
{
    names.push(ident.name.copy(alloc)?)?;
    Ok(())
}
