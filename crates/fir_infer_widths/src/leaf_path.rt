//! Paths of leaves as texts, step by step.

ghost use Rattle.std.specs.Prelude.{◌≡◌, ◌++◌, IfOk, OnOk, flat_map};
ghost use Rattle.fir_ast.specs.working.Views.{sink_of};
ghost use Rattle.fir_meaning.specs.LeafPaths.{element, named, path_text, step_text};
ghost use Rattle.fir_names.specs.working.Parts.{part_view};
ghost use Rattle.fir_type_table.specs.working.Wanted.{path_kept};
ghost use Rattle.fir_types.specs.working.Seen.{sink_path, steps_of};

use fir_ast::{Part, Reference};
use fir_base::{MemoryOut, Name, put_decimal};
use std::alloc::Global;

/// Appends the step to a field.
pub fn put_field(path: &mut Vec<u8>, name: &Name) -> Result<(), MemoryOut>
    ensures { OnOk result (path.new.items ≡ path.old.items ++ step_text (named name.now)) }
{
    path.extend_from_slice(b".")?;
    path.extend_from_slice(name.as_bytes())?;
    Ok(())
}

/// Appends the step to an element of a vector.
pub fn put_element(path: &mut Vec<u8>, index: u128) -> Result<(), MemoryOut>
    ensures { OnOk result (path.new.items ≡ path.old.items ++ step_text (element index)) }
{
    path.extend_from_slice(b"[")?;
    put_decimal(path, index)?;
    path.extend_from_slice(b"]")?;
    Ok(())
}

/// Goes back to a length where nothing was found.
pub fn kept(path: &mut Vec<u8>, before: usize, found: bool) -> bool
    ensures same { result ≡ found }
    ensures path { path.new.items ≡ path_kept found before path.old.items }
{
    if !found {
        path.truncate(before);
    }
    found
}

/// The text of a leaf of what is declared: its name, and steps behind it.
pub fn leaf_of_name(alloc: Global, name: &Name, steps: &[u8]) -> Result<Name, MemoryOut>
    ensures { IfOk result (λ leaf. leaf ≡ name.now ++ steps.now) }
{
    let mut text = Vec::from_slice(alloc, name.as_bytes())?;
    text.extend_from_slice(steps)?;
    Ok(Name::from_vec(text))
}

/// The text of a leaf of a reference: its own steps, and steps behind them.
pub fn leaf_of_reference(
    alloc: Global,
    reference: &Reference,
    steps: &[u8],
) -> Result<Name, MemoryOut>
    ensures { IfOk result (λ leaf. leaf ≡ path_text (sink_path (sink_of reference.now)) ++ steps.now) }
{
    let mut text = Vec::new(alloc);
    put_reference(&mut text, reference)?;
    text.extend_from_slice(steps)?;
    Ok(Name::from_vec(text))
}

/// Appends a name and the steps behind it.
fn put_reference(out: &mut Vec<u8>, reference: &Reference) -> Result<(), MemoryOut>
    ensures { OnOk result (out.new.items ≡ out.old.items ++ path_text (sink_path (sink_of reference.now))) }
{
    out.extend_from_slice(reference.name.as_bytes())?;
    for part in &reference.parts {
        put_step(out, part)?;
    }
    Ok(())
}

/// Appends a step: of a dynamic index the first element.
fn put_step(out: &mut Vec<u8>, part: &Part) -> Result<(), MemoryOut>
    ensures { OnOk result (out.new.items ≡ out.old.items ++ flat_map step_text (steps_of (part_view part.now))) }
{
    match part {
        Part::Field(_, _, name) => put_field(out, name),
        Part::Index(_, _, index) => put_element(out, *index),
        Part::Access(_, _) => put_element(out, 0),
    }
}
