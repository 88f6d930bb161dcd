//! The shape of the traces of a tree.

ghost use Rattle.std.specs.Prelude.{◌≡◌, ◌++◌, ◌≤◌, IfOk, IfSome, OnOk, Ok, None, flat_map, length, sum_by};
ghost use Rattle.trace_text.specs.Shapes.{plain};
ghost use Rattle.trace_text.specs.working.Shapes.{IsShape};
ghost use Rattle.ver_ast.specs.Nets.{arrays, clocks, input_nets, widths_of, shape as shape_of_tree};
ghost use Rattle.ver_ast.specs.Spells.{HasNames};
ghost use Rattle.ver_ast.specs.Valid.{Valid};
ghost use Rattle.ver_sim.specs.TraceShapes.{array_word, reg_word, trace_shape};

use fir_base::{Direction, MemoryOut};
use std::alloc::Global;
use trace_text::{Shape, StateWord};
use ver_ast::{Item, Verilog};

/// The shape of the traces of a valid tree: the widths of its inputs in port order, the number of its clocks, and its
/// registers and then its arrays in text order. None where some name in the tree is not spelled as a name, as can be in
/// one that no text was read for.
pub fn shape(alloc: Global, v: &Verilog) -> Result<Option<Shape>, MemoryOut>
    requires { Valid v.now }
    ensures shape { IfOk result (λ o. IfSome o (λ s. s ≡ trace_shape v.now)) }
    ensures plain { IfOk result (λ o. IfSome o (λ s. plain s ≡ shape_of_tree v.now)) }
    ensures none { result ≡ Ok None → HasNames v.now → ⊥ }
{
    collected(alloc, v)
}

/// The shape, as it is collected from ports and items.
fn collected(alloc: Global, v: &Verilog) -> Result<Option<Shape>, MemoryOut>
    requires { Valid v.now }
    ensures shape { IfOk result (λ o. IfSome o (λ s. s ≡ trace_shape v.now)) }
    ensures none { result ≡ Ok None → IsShape (trace_shape v.now) → ⊥ }
{
    let inputs = input_widths(alloc, v)?;
    let mut state = Vec::new(alloc);
    put_register_words(alloc, v, &mut state)?;
    put_array_words(alloc, v, &mut state)?;
    Shape::new(alloc, inputs, clock_count(v), state)
}

/// The widths of the inputs in port order.
fn input_widths(alloc: Global, v: &Verilog) -> Result<Vec<u32>, MemoryOut>
    ensures { IfOk result (λ widths. widths.items ≡ widths_of (input_nets v.now)) }
{
    let mut widths = Vec::new(alloc);
    for port in v.ports.as_slice() {
        if let Direction::Input = port.direction
            && !port.is_clock
        {
            widths.push(port.width)?;
        }
    }
    Ok(widths)
}

/// The number of clocks.
fn clock_count(v: &Verilog) -> usize
    ensures { result ≡ length (clocks v.now) }
{
    let mut count = 0usize;
    for port in v.ports.as_slice() {
        if let Direction::Input = port.direction
            && port.is_clock
        {
            count += 1;
        }
    }
    count
}

fn put_register_words(
    alloc: Global,
    v: &Verilog,
    words: &mut Vec<StateWord>,
) -> Result<(), MemoryOut>
    ensures { OnOk result (words.new.items ≡ words.old.items ++ flat_map reg_word v.now.items) }
{
    for item in v.items.as_slice() {
        if let Item::Reg(net) = item {
            words.push(StateWord {
                name: net.name.copy(alloc)?,
                width: net.width,
                depth: None,
            })?;
        }
    }
    Ok(())
}

fn put_array_words(alloc: Global, v: &Verilog, words: &mut Vec<StateWord>) -> Result<(), MemoryOut>
    requires { sum_by (λ k. k.depth) (arrays v.now) ≤ 4194304 }
    ensures { OnOk result (words.new.items ≡ words.old.items ++ flat_map array_word v.now.items) }
{
    for item in v.items.as_slice() {
        if let Item::Array(array) = item {
            words.push(StateWord {
                name: array.name.copy(alloc)?,
                width: array.width,
                depth: Some(array.last + 1),
            })?;
        }
    }
    Ok(())
}
