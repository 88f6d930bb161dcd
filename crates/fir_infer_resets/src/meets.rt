//! What meets in the statements of a module, in the order of the text.

ghost use Rattle.std.specs.Prelude.{◌≡◌, [], ◌∷◌, ◌++◌, ◌+◌, List, map, length, option_map, OnOk};
ghost use Rattle.fir_ast.specs.declared.place.Place.{Place};
ghost use Rattle.fir_ast.specs.Types.{DataType};
ghost use Rattle.fir_ast.specs.Statements as tree;
ghost use Rattle.fir_ast.specs.Statements.{PlacedName};
ghost use Rattle.fir_ast.specs.working.Views.{block_of, expr_of, named_of, reset_of, sink_of, stmt_of};
ghost use Rattle.fir_ast.specs.working.TypeViews.{type_of};
ghost use Rattle.fir_meaning.specs.Visibility.{Before, behind, behind_block};
ghost use Rattle.fir_names.specs.working.Parts.{when_view};
ghost use Rattle.fir_types.specs.working.ModuleNotes.{block_notes, statement_notes};
ghost use Rattle.fir_types.specs.working.Notes.{Note as Meant};
ghost use Rattle.fir_infer_resets.specs.working.Meetings.{meetings_in, meetings_in_block};
ghost use Rattle.fir_infer_resets.specs.working.Meets.{Ahead, Meets};
ghost use Rattle.fir_infer_resets.specs.working.Passes.{PassesStatement, connect_by};
ghost use Rattle.fir_meaning.specs.ResetJoins.{ResetModule};

use crate::meet::Meet;
use fir_ast::{Expr, Ident, Reference, Register, Stmt, When};
use fir_base::MemoryOut;
use fir_types::Note;

/// How far the walk over a module has come.
#[derive(Drop)]
pub struct Walk<'a> {
    /// What is found of the expressions that come.
    pub notes: &'a [Note],
    /// How many are declared before the place.
    pub declared: usize,
    pub meets: Vec<Meet<'a>>,
}

impl<'a> Walk<'a> {
    /// Passes a declaration.
    pub fn declare(&mut self) -> Result<(), MemoryOut>
        ensures { OnOk result (self.new ≡ record self.old { declared = self.old.declared + 1 }) }
    {
        self.declared = self.declared.checked_add(1).ok_or(MemoryOut)?;
        Ok(())
    }
}

/// What statements let meet, blocks of whens entered.
#[cycle(statements)]
pub fn in_block<'a>(body: &'a [Stmt], walk: &mut Walk<'a>) -> Result<(), MemoryOut>
    ensures { (ts : List DataType) (m : ResetModule) (before : Before) (rest : List Meant) → Ahead ts walk.old.notes.now (block_notes m.modules before (block_of (map stmt_of body.now)) ++ rest) → walk.old.declared ≡ length before.declared → OnOk result (Meets ts rest (length (behind_block before (block_of (map stmt_of body.now))).declared) (meetings_in_block m before (block_of (map stmt_of body.now))) walk.old walk.new) }
{
    for statement in body {
        in_statement(statement, walk)?;
    }
    Ok(())
}

#[cycle(statements)]
fn in_statement<'a>(statement: &'a Stmt, walk: &mut Walk<'a>) -> Result<(), MemoryOut>
    ensures { (ts : List DataType) (m : ResetModule) (before : Before) (rest : List Meant) → Ahead ts walk.old.notes.now (statement_notes m.modules before (stmt_of statement.now) ++ rest) → walk.old.declared ≡ length before.declared → OnOk result (Meets ts rest (length (behind before (stmt_of statement.now)).declared) (meetings_in m before (stmt_of statement.now)) walk.old walk.new) }
{
    match statement {
        Stmt::Wire(_, _, _, _) | Stmt::Mem(_, _) => walk.declare(),
        Stmt::Reg(_, register) => in_register(walk, register),
        Stmt::Node(_, ident, value) => in_node(walk, ident, value),
        Stmt::Inst(_, ident, _) => in_instance(walk, ident),
        Stmt::When(_, when) => in_when(when, walk),
        Stmt::Connect(_, sink, source) => in_connect(walk, true, sink, source),
        Stmt::PartialConnect(_, sink, source) => in_connect(walk, false, sink, source),
        Stmt::Invalid(_, sink) => {
            walk.reference(sink);
            Ok(())
        }
        Stmt::Skip(_) => Ok(()),
    }
}

/// The condition, and then the blocks.
#[cycle(statements)]
fn in_when<'a>(when: &'a When, walk: &mut Walk<'a>) -> Result<(), MemoryOut>
    ensures { (place : Place) → PassesStatement (when_view when.now place) walk.old walk.new result }
{
    walk.pass_expression(&when.condition);
    in_block(&when.then_block, walk)?;
    in_block(&when.else_block, walk)
}

/// A register, in whose expressions nothing meets.
fn in_register(walk: &mut Walk, register: &Register) -> Result<(), MemoryOut>
    ensures { (place : Place) → PassesStatement (tree.register place (named_of register.now.ident) register.now.type_place (type_of register.now.ty) (expr_of register.now.clock) (option_map reset_of register.now.reset)) walk.old walk.new result }
{
    walk.pass_expression(&register.clock);
    walk.pass_reset(&register.reset);
    walk.declare()
}

/// A node, and its expression.
fn in_node<'a>(walk: &mut Walk<'a>, ident: &'a Ident, value: &'a Expr) -> Result<(), MemoryOut>
    ensures { (place : Place) → PassesStatement (tree.node place (named_of ident.now) (expr_of value.now)) walk.old walk.new result }
{
    let given = walk.source(value);
    let declared = walk.declared;
    put_meet(&mut walk.meets, Meet::Node(ident, declared, given))?;
    walk.declare()
}

/// An instance, which meets the ports of its module.
fn in_instance<'a>(walk: &mut Walk<'a>, ident: &'a Ident) -> Result<(), MemoryOut>
    ensures { (place : Place) (other : PlacedName) → PassesStatement (tree.instance place (named_of ident.now) other) walk.old walk.new result }
{
    let declared = walk.declared;
    put_meet(&mut walk.meets, Meet::Instance(ident, declared))?;
    walk.declare()
}

/// The two sides of a connect, or else of a partial connect.
fn in_connect<'a>(
    walk: &mut Walk<'a>,
    whole: bool,
    sink: &'a Reference,
    source: &'a Expr,
) -> Result<(), MemoryOut>
    ensures { (place : Place) → PassesStatement (connect_by whole place (sink_of sink.now) (expr_of source.now)) walk.old walk.new result }
{
    let range = walk.reference(sink);
    let given = walk.source(source);
    put_meet(&mut walk.meets, Meet::Connected(whole, sink, range, given))
}

/// Appends what meets.
fn put_meet<'a>(meets: &mut Vec<Meet<'a>>, meet: Meet<'a>) -> Result<(), MemoryOut>
    ensures { OnOk result (meets.new.items ≡ meets.old.items ++ meet.entry ∷ []) }
{
    meets.push(meet)?;
    Ok(())
}
