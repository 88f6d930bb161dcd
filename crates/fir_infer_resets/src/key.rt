//! Paths as the keys of tables.

ghost use Rattle.std.specs.Prelude.{◌≡◌, ◌≤◌, ◌++◌, IfOk, OnOk, length};
ghost use Rattle.fir_meaning.specs.LeafPaths.{element, named};
ghost use Rattle.fir_infer_resets.specs.working.Holding.{path_of, step_of};
ghost use Rattle.fir_infer_resets.specs.working.PathKeys.{key_byte, number_key, path_key, step_key};
ghost use Rattle.fir_reset.specs.working.ElementPaths.{any_element, firsts_behind};

use crate::item::Step;
use fir_base::{MemoryOut, Name};
use std::alloc::Global;

/// The key of a path in the module of that number.
pub fn key_of(alloc: Global, module_number: usize, path: &[Step]) -> Result<Name, MemoryOut>
    ensures { IfOk result (λ k. k ≡ path_key module_number (path_of path.now)) }
{
    let mut key = Vec::new(alloc);
    put_element(&mut key, module_number as u128)?;
    for step in path {
        put_step(&mut key, step)?;
    }
    Ok(Name::from_vec(key))
}

/// The path with the first element for each behind so many steps.
pub fn with_firsts_behind<'a>(
    alloc: Global,
    kept: usize,
    path: &[Step<'a>],
) -> Result<Vec<Step<'a>>, MemoryOut>
    requires { kept ≤ length path.now }
    ensures { IfOk result (λ steps. path_of steps.items ≡ firsts_behind kept (path_of path.now)) }
{
    let mut steps = Vec::from_slice(alloc, &path[..kept])?;
    for step in &path[kept..] {
        steps.push(first_element(step))?;
    }
    Ok(steps)
}

fn first_element<'a>(step: &Step<'a>) -> Step<'a>
    ensures { step_of result ≡ any_element (step_of step.now) }
{
    match step {
        Step::Named(name) => Step::Named(name),
        Step::Element(_) => Step::Element(0),
    }
}

fn put_step(out: &mut Vec<u8>, step: &Step) -> Result<(), MemoryOut>
    ensures { OnOk result (out.new.items ≡ out.old.items ++ step_key (step_of step.now)) }
{
    match step {
        Step::Named(name) => put_name(out, name),
        Step::Element(index) => put_element(out, *index),
    }
}

fn put_name(out: &mut Vec<u8>, name: &Name) -> Result<(), MemoryOut>
    ensures { OnOk result (out.new.items ≡ out.old.items ++ step_key (named name.now)) }
{
    out.push(1)?;
    for byte in name.as_bytes() {
        put_byte(out, *byte)?;
    }
    Ok(())
}

fn put_byte(out: &mut Vec<u8>, byte: u8) -> Result<(), MemoryOut>
    ensures { OnOk result (out.new.items ≡ out.old.items ++ key_byte byte) }
{
    if byte < 3 {
        out.push(2)?;
    }
    out.push(byte)?;
    Ok(())
}

fn put_element(out: &mut Vec<u8>, index: u128) -> Result<(), MemoryOut>
    ensures { OnOk result (out.new.items ≡ out.old.items ++ step_key (element index)) }
{
    out.push(0)?;
    put_number(out, index)
}

/// Appends the digits in base 128, the highest first, and none for 0.
fn put_number(out: &mut Vec<u8>, n: u128) -> Result<(), MemoryOut>
    ensures { OnOk result (out.new.items ≡ out.old.items ++ number_key n) }
{
    if n == 0 {
        return Ok(());
    }
    put_number(out, n / 128)?;
    out.push((n % 128) as u8 + 3)?;
    Ok(())
}
