//! Paths of leaves, as texts.

ghost use Rattle.std.specs.Prelude.{◌≡◌, [], ◌∷◌, ◌++◌, IfOk, OnOk, flat_map};
ghost use Rattle.fir_meaning.specs.LeafPaths.{element, named, path_text, step_text};
ghost use Rattle.fir_infer_resets.specs.working.Holding.{path_of, step_of};

use crate::item::Step;
use fir_base::{MemoryOut, Name, put_decimal};
use std::alloc::Global;

/// The text of a path: no dot stands before a name at its head.
pub fn path_name(alloc: Global, path: &[Step]) -> Result<Name, MemoryOut>
    ensures { IfOk result (λ name. name ≡ path_text (path_of path.now)) }
{
    let mut text = Vec::new(alloc);
    let [first, rest @ ..] = path else {
        return Ok(Name::from_vec(text));
    };
    put_first(&mut text, first)?;
    put_steps(&mut text, rest)?;
    Ok(Name::from_vec(text))
}

/// Appends the step at the head of a path.
fn put_first(out: &mut Vec<u8>, step: &Step) -> Result<(), MemoryOut>
    ensures { OnOk result (out.new.items ≡ out.old.items ++ path_text (step_of step.now ∷ [])) }
{
    match step {
        Step::Named(name) => put_name(out, name),
        Step::Element(index) => put_element(out, *index),
    }
}

/// Appends steps, a dot before each name.
fn put_steps(out: &mut Vec<u8>, steps: &[Step]) -> Result<(), MemoryOut>
    ensures { OnOk result (out.new.items ≡ out.old.items ++ flat_map step_text (path_of steps.now)) }
{
    for step in steps {
        put_step(out, step)?;
    }
    Ok(())
}

fn put_step(out: &mut Vec<u8>, step: &Step) -> Result<(), MemoryOut>
    ensures { OnOk result (out.new.items ≡ out.old.items ++ step_text (step_of step.now)) }
{
    match step {
        Step::Named(name) => put_field(out, name),
        Step::Element(index) => put_element(out, *index),
    }
}

fn put_field(out: &mut Vec<u8>, name: &Name) -> Result<(), MemoryOut>
    ensures { OnOk result (out.new.items ≡ out.old.items ++ step_text (named name.now)) }
{
    out.extend_from_slice(b".")?;
    put_name(out, name)
}

fn put_name(out: &mut Vec<u8>, name: &Name) -> Result<(), MemoryOut>
    ensures { OnOk result (out.new.items ≡ out.old.items ++ name.now) }
{
    out.extend_from_slice(name.as_bytes())?;
    Ok(())
}

fn put_element(out: &mut Vec<u8>, index: u128) -> Result<(), MemoryOut>
    ensures { OnOk result (out.new.items ≡ out.old.items ++ step_text (element index)) }
{
    out.extend_from_slice(b"[")?;
    put_decimal(out, index)?;
    out.extend_from_slice(b"]")?;
    Ok(())
}
