//! The text of a leaf of what a module declares: the name of the declaration, and the steps to the leaf within its type
//! (FIRRTL spec, "References").

ghost use Rattle.std.specs.Prelude.{◌≡◌, ◌<◌, ◌++◌, ℕ, OnOk, flat_map};
ghost use Rattle.fir_ast.specs.Circuits.{CircuitTree};
ghost use Rattle.fir_ast.specs.working.Views.{circuit_of};
ghost use Rattle.fir_meaning.specs.LeafPaths.{LeafPath, step_text};
ghost use Rattle.fir_type_table.specs.working.Tables.{types_of};
ghost use Rattle.fir_types.specs.working.Seen.{found_type, seen};
ghost use Rattle.fir_types.specs.working.TypedModules.{IsTyped, type_declared};
ghost use Rattle.fir_leaf_text.specs.working.DeclaredLeaves.{IsDeclaredLeaf, WritesDeclaredLeaf};
ghost use Rattle.fir_leaf_text.specs.working.TypePaths.{WritesPath};

use crate::declared_name::declared_name;
use crate::type_path::put_leaf_path;
use fir_base::MemoryOut;
use fir_names::Named;
use fir_type_table::TypeTable;
use fir_types::{Findings, Found, Typed};

/// Appends the text of the leaf of that number of the declaration before which so many stand in the module of that
/// number; of what is not there it says nothing.
pub fn put_declared_leaf(
    typed: &Typed,
    module_number: usize,
    position: usize,
    number: u64,
    text: &mut Vec<u8>,
) -> Result<(), MemoryOut>
    requires { number < u64.MAX }
    ensures { OnOk result (WritesDeclaredLeaf (circuit_of typed.now) module_number position number text.old.items text.new.items) }
{
    put_name(typed.named(), module_number, position, text)?;
    put_steps(typed, module_number, position, number, text)
}

/// Appends the name of the declaration.
fn put_name(
    named: &Named,
    module_number: usize,
    position: usize,
    text: &mut Vec<u8>,
) -> Result<(), MemoryOut>
    ensures { OnOk result ((number : ℕ) (path : LeafPath) (leaf : IsDeclaredLeaf (circuit_of named.now) module_number position number path) → text.new.items ≡ text.old.items ++ leaf.known.name) }
{
    let Some(part) = named.circuit().modules.as_slice().get(module_number) else {
        return Ok(());
    };
    let Some(name) = declared_name(part, position) else {
        return Ok(());
    };
    text.extend_from_slice(name.as_bytes())?;
    Ok(())
}

/// Appends the steps to the leaf of that number within the type of the declaration.
fn put_steps(
    typed: &Typed,
    module_number: usize,
    position: usize,
    number: u64,
    text: &mut Vec<u8>,
) -> Result<(), MemoryOut>
    requires { number < u64.MAX }
    ensures { OnOk result ((path : LeafPath) (leaf : IsDeclaredLeaf (circuit_of typed.now) module_number position number path) → text.new.items ≡ text.old.items ++ flat_map step_text leaf.steps) }
{
    let findings = typed.findings();
    let Some(found) = found_at(findings, module_number, position) else {
        return Ok(());
    };
    put_found_path(&findings.table, found, number, text)
}

/// What is found of the declaration.
pub fn found_at(findings: &Findings, module_number: usize, position: usize) -> Option<Found>
    ensures { (c : CircuitTree) → IsTyped c findings.now → seen (types_of findings.now.table) result ≡ type_declared c module_number position }
{
    let declared = findings.declared.get(module_number)?;
    match declared.get(position) {
        Some(found) => *found,
        None => None,
    }
}

/// Appends the steps to the leaf of that number of what is found. Outside the table it is its own leaf.
fn put_found_path(
    table: &TypeTable,
    found: Found,
    number: u64,
    text: &mut Vec<u8>,
) -> Result<(), MemoryOut>
    requires { number < u64.MAX }
    ensures { OnOk result (WritesPath (found_type (types_of table.now) found) number text.old.items text.new.items) }
{
    match found {
        Found::Number(_, _) | Found::AsyncReset => Ok(()),
        Found::Type(id, _) => put_leaf_path(table, id, number, text),
    }
}
