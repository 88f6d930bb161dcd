//! The paths of the arrays of a module's memories, in their order (FIRRTL spec, "Memories").

ghost use Rattle.std.specs.Prelude.{◌≡◌, ◌++◌, IfOk, OnOk, map};
ghost use Rattle.fir_ast.specs.declared.place.Place.{Place};
ghost use Rattle.fir_ast.specs.working.Views.{block_of, circuit_of, memory_part_of, stmt_of};
ghost use Rattle.fir_names.specs.working.Parts.{when_view};
ghost use Rattle.fir_leaf_text.specs.working.TextsOfArrays.{AreArrayTextsOf, array_texts_in, array_texts_in_block, memory_texts};

use crate::word_texts::push_word_texts;
use fir_ast::{Memory, Stmt, When};
use fir_base::{MemoryOut, Name};
use fir_leaf_circuit::LeafCircuit;
use fir_types::first_word_type;
use std::alloc::Global;

/// The paths of the arrays of the module of that number, as lines print them: of each memory, in the order of the text,
/// one for each leaf of its data, which is the memory's name and the steps to the leaf (FIRRTL spec, "Memories",
/// "References").
pub fn array_texts(
    alloc: Global,
    circuit: &LeafCircuit,
    module_number: usize,
) -> Result<Vec<Name>, MemoryOut>
    ensures { IfOk result (λ texts. AreArrayTextsOf (circuit_of circuit.now) module_number texts.items) }
{
    let mut texts = Vec::new(alloc);
    let named = circuit.fitted().typed().named();
    let Some(part) = named.circuit().modules.as_slice().get(module_number) else {
        return Ok(texts);
    };
    let mut path = Vec::new(alloc);
    push_texts_of_block(alloc, &part.body, &mut path, &mut texts)?;
    Ok(texts)
}

/// Pushes those of the memories of a block. The path is made anew for each.
#[cycle(arrays)]
fn push_texts_of_block(
    alloc: Global,
    body: &[Stmt],
    path: &mut Vec<u8>,
    texts: &mut Vec<Name>,
) -> Result<(), MemoryOut>
    ensures { OnOk result (texts.new.items ≡ texts.old.items ++ array_texts_in_block (block_of (map stmt_of body.now))) }
{
    for statement in body {
        push_texts_of_statement(alloc, statement, path, texts)?;
    }
    Ok(())
}

/// Pushes those of a memory, or of the blocks of a when.
#[cycle(arrays)]
fn push_texts_of_statement(
    alloc: Global,
    statement: &Stmt,
    path: &mut Vec<u8>,
    texts: &mut Vec<Name>,
) -> Result<(), MemoryOut>
    ensures { OnOk result (texts.new.items ≡ texts.old.items ++ array_texts_in (stmt_of statement.now)) }
{
    match statement {
        Stmt::Mem(_, memory) => push_texts_of_memory(alloc, memory, path, texts),
        Stmt::When(_, when) => push_texts_of_when(alloc, when, path, texts),
        Stmt::Wire(_, _, _, _)
        | Stmt::Reg(_, _)
        | Stmt::Node(_, _, _)
        | Stmt::Inst(_, _, _)
        | Stmt::Connect(_, _, _)
        | Stmt::PartialConnect(_, _, _)
        | Stmt::Invalid(_, _)
        | Stmt::Skip(_) => Ok(()),
    }
}

/// Pushes those of the first block of a when, and then those of the second.
#[cycle(arrays)]
fn push_texts_of_when(
    alloc: Global,
    when: &When,
    path: &mut Vec<u8>,
    texts: &mut Vec<Name>,
) -> Result<(), MemoryOut>
    ensures { OnOk result ((place : Place) → texts.new.items ≡ texts.old.items ++ array_texts_in (when_view when.now place)) }
{
    push_texts_of_block(alloc, &when.then_block, path, texts)?;
    push_texts_of_block(alloc, &when.else_block, path, texts)
}

/// Pushes those of the arrays of a memory. One without a data-type has none.
fn push_texts_of_memory(
    alloc: Global,
    memory: &Memory,
    path: &mut Vec<u8>,
    texts: &mut Vec<Name>,
) -> Result<(), MemoryOut>
    ensures { OnOk result (texts.new.items ≡ texts.old.items ++ memory_texts memory.now.ident.name (map memory_part_of memory.now.fields.items)) }
{
    let Some(ty) = first_word_type(&memory.fields) else {
        return Ok(());
    };
    path.clear();
    path.extend_from_slice(memory.ident.name.as_bytes())?;
    push_word_texts(alloc, ty, path, texts)
}
