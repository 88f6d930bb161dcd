//! What statements cost without their expressions and what they declare: an instance and a when cost 1 each, and a
//! memory the leaves of all its words.

ghost use Rattle.std.specs.Prelude.{◌≡◌, map};
ghost use Rattle.fir_ast.specs.declared.place.Place.{Place};
ghost use Rattle.fir_ast.specs.working.Views.{block_of, memory_part_of, stmt_of};
ghost use Rattle.fir_names.specs.working.Parts.{when_view};
ghost use Rattle.fir_type_table.specs.working.Saturated.{saturated};
ghost use Rattle.fir_meaning.specs.Costs.{memory_words_of};
ghost use Rattle.fir_expand.specs.working.OwnSums.{plain_cost, plain_cost_of_block};

use crate::written_leaves::leaves_of_type;
use fir_ast::{MemoryField, Stmt, When};
use fir_type_table::times;
use fir_types::{first_depth, first_word_type};

/// What statements cost, those in whens too; at most 2^64 - 1.
#[cycle(statements)]
pub fn plain_cost_of_block(body: &[Stmt]) -> u64
    ensures { result ≡ saturated (plain_cost_of_block (block_of (map stmt_of body.now))) }
{
    let mut sum: u64 = 0;
    for statement in body {
        sum = sum.saturating_add(plain_cost(statement));
    }
    sum
}

/// What a statement costs, with those in it.
#[cycle(statements)]
fn plain_cost(statement: &Stmt) -> u64
    ensures { result ≡ saturated (plain_cost (stmt_of statement.now)) }
{
    match statement {
        Stmt::Inst(_, _, _) => 1,
        Stmt::Mem(_, memory) => words(&memory.fields),
        Stmt::When(_, when) => plain_cost_of_when(when),
        _ => 0,
    }
}

/// What a when costs, wherever it stands.
#[cycle(statements)]
fn plain_cost_of_when(when: &When) -> u64
    ensures { (place : Place) → result ≡ saturated (plain_cost (when_view when.now place)) }
{
    let first = plain_cost_of_block(&when.then_block);
    let second = plain_cost_of_block(&when.else_block);
    first.saturating_add(second).saturating_add(1)
}

/// The leaves of all words of a memory; at most 2^64 - 1.
fn words(fields: &[MemoryField]) -> u64
    ensures { result ≡ saturated (memory_words_of (map memory_part_of fields.now)) }
{
    match (first_depth(fields), first_word_type(fields)) {
        (Some(depth), Some(ty)) => times(depth, leaves_of_type(ty)),
        _ => 0,
    }
}
