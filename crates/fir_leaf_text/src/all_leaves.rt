//! The paths of all leaves of a module, in their order.

ghost use Rattle.std.specs.Prelude.{◌≡◌, ◌++◌, IfOk, OnOk, Some, slice_get};
ghost use Rattle.fir_ast.specs.Circuits.{ModuleTree};
ghost use Rattle.fir_ast.specs.working.Views.{circuit_of};
ghost use Rattle.fir_type_table.specs.working.Tables.{types_of};
ghost use Rattle.fir_types.specs.working.Seen.{found_type};
ghost use Rattle.fir_leaf_text.specs.working.DeclaredNames.{names_in_module};
ghost use Rattle.fir_leaf_text.specs.working.TextsOfLeaves.{AreTextsOf, declared_texts};
ghost use Rattle.fir_leaf_text.specs.working.TypePaths.{texts_behind, type_paths};

use crate::declared_leaf::found_at;
use crate::type_texts::{push_text, push_type_texts};
use fir_base::{MemoryOut, Name};
use fir_leaf::leaves_are_declared;
use fir_leaf_circuit::LeafCircuit;
use fir_type_table::TypeTable;
use fir_types::{Found, Typed};
use std::alloc::Global;

/// The paths of the leaves of the module of that number, as lines print them. The names are those of what it declares,
/// in the order of the text.
pub fn leaf_texts(
    alloc: Global,
    circuit: &LeafCircuit,
    module_number: usize,
    names: &[Name],
) -> Result<Vec<Name>, MemoryOut>
    ensures { IfOk result (λ texts. (m : ModuleTree) → slice_get (circuit_of circuit.now).modules module_number ≡ Some m → names.now ≡ names_in_module m → AreTextsOf (circuit_of circuit.now) module_number texts.items) }
{
    leaves_are_declared();
    let typed = circuit.fitted().typed();
    let mut texts = Vec::new(alloc);
    let mut path = Vec::new(alloc);
    for (position, name) in names.iter().enumerate() {
        push_declared_texts(
            alloc,
            typed,
            module_number,
            position,
            name,
            &mut path,
            &mut texts,
        )?;
    }
    Ok(texts)
}

/// Pushes those of the leaves of the declaration of that name, before which so many stand in the module. The path is
/// made anew.
fn push_declared_texts(
    alloc: Global,
    typed: &Typed,
    module_number: usize,
    position: usize,
    name: &Name,
    path: &mut Vec<u8>,
    texts: &mut Vec<Name>,
) -> Result<(), MemoryOut>
    ensures { OnOk result (texts.new.items ≡ texts.old.items ++ declared_texts (circuit_of typed.now) module_number position name.now) }
{
    let findings = typed.findings();
    let Some(found) = found_at(findings, module_number, position) else {
        return Ok(());
    };
    path.clear();
    path.extend_from_slice(name.as_bytes())?;
    push_found_texts(alloc, &findings.table, found, path, texts)
}

/// Pushes those of the leaves of what is found, each behind the path. Outside the table it is its own leaf.
fn push_found_texts(
    alloc: Global,
    table: &TypeTable,
    found: Found,
    path: &mut Vec<u8>,
    texts: &mut Vec<Name>,
) -> Result<(), MemoryOut>
    ensures { OnOk result (texts.new.items ≡ texts.old.items ++ texts_behind path.old.items (type_paths (found_type (types_of table.now) found))) }
{
    match found {
        Found::Number(_, _) | Found::AsyncReset => push_text(alloc, path, texts),
        Found::Type(id, _) => push_type_texts(alloc, table, id, path, texts),
    }
}
