//! What the line of a tick shows: numbers at their widths.

ghost use Rattle.std.specs.Prelude.{◌≡◌, ◌++◌, IfOk, OnErr, OnOk, Some, None, option_map, if◌then◌else◌};
ghost use Rattle.fir_base.specs.Ticks.{FitEach};
ghost use Rattle.trace_text.specs.OutputLines.{line_text};
ghost use Rattle.trace_text.specs.RunLines.{with_widths};
ghost use Rattle.trace_text.specs.Shapes.{plain, state_widths};
ghost use Rattle.ver_ast.specs.Nets.{shape as shape_of_tree};
ghost use Rattle.ver_ast.specs.Valid.{Valid};
ghost use Rattle.ver_sim.specs.working.Views.{shown_outputs};
ghost use Rattle.ver_runner.specs.VerilogLines.{output_widths};
ghost use Rattle.ver_runner.specs.working.Rooms.{widths, FitLine, IsRoomFor};

use fir_base::{Direction, MemoryOut};
use fir_bits::Bits;
use std::alloc::Global;
use trace_text::{Shape, write_line};
use ver_ast::Verilog;
use ver_sim::VSim;

/// Room for the outputs, and for the words of the state where they are shown.
#[derive(Drop)]
pub struct Shown {
    outputs: Vec<Bits>,
    with_state: bool,
    state: Vec<Bits>,
}

impl Shown {
    /// Room for what a tree shows.
    pub fn new(
        alloc: Global,
        v: &Verilog,
        shape: &Shape,
        with_state: bool,
    ) -> Result<Shown, MemoryOut>
        requires valid { Valid v.now }
        requires of_tree { plain shape.now ≡ shape_of_tree v.now }
        ensures room { IfOk result (IsRoomFor v.now) }
        ensures with_state { IfOk result (λ shown. shown.with_state ≡ with_state) }
    {
        let outputs = output_room(alloc, v)?;
        let state = if with_state {
            state_room(alloc, shape)?
        } else {
            Vec::new(alloc)
        };
        Ok(Shown {
            outputs,
            with_state,
            state,
        })
    }

    /// Appends the line of the tick that the simulator took, which ends with the number of rounds where there is one.
    /// Where memory is wanting, `lines` is as before.
    pub fn put_line(
        &mut self,
        alloc: Global,
        sim: &VSim,
        rounds: Option<u64>,
        lines: &mut Vec<u8>,
    ) -> Result<(), MemoryOut>
        requires room { IsRoomFor sim.now.tree self.old }
        requires fit { FitLine sim.now }
        ensures room { IsRoomFor sim.now.tree self.new }
        ensures with_state { self.new.with_state ≡ self.old.with_state }
        ensures line { OnOk result (lines.new.items ≡ lines.old.items ++ line_text (with_widths (output_widths sim.now.tree) (shown_outputs sim.now)) (if self.old.with_state then Some (with_widths (shape_of_tree sim.now.tree).state sim.now.state) else None) rounds) }
        ensures unchanged { OnErr result (lines.new.items ≡ lines.old.items) }
    {
        fill(&mut self.outputs, sim.outputs());
        if self.with_state {
            fill(&mut self.state, sim.state());
        }
        write_line(alloc, self.outputs.as_slice(), self.state(), rounds, lines)
    }

    /// The words of the state, where they are shown.
    fn state(&self) -> Option<&[Bits]>
        ensures { option_map (λ s. s.now) result ≡ (if self.now.with_state then Some self.now.state.items else None) }
    {
        if self.with_state {
            Some(self.state.as_slice())
        } else {
            None
        }
    }
}

/// Room for the outputs of bits, in port order.
fn output_room(alloc: Global, v: &Verilog) -> Result<Vec<Bits>, MemoryOut>
    requires { Valid v.now }
    ensures { IfOk result (λ room. widths room.items ≡ output_widths v.now) }
{
    let mut room = Vec::new(alloc);
    for port in v.ports.as_slice() {
        if let Direction::Output = port.direction
            && !port.is_clock
        {
            room.push(Bits::of(port.width, 0))?;
        }
    }
    Ok(room)
}

/// Room for the words of the state.
fn state_room(alloc: Global, shape: &Shape) -> Result<Vec<Bits>, MemoryOut>
    ensures { IfOk result (λ room. widths room.items ≡ state_widths shape.now.state) }
{
    let mut room = Vec::new(alloc);
    for word in shape.state() {
        let size = word.depth.unwrap_or(1) as usize;
        room.resize(room.len() + size, Bits::of(word.width, 0))?;
    }
    Ok(room)
}

/// The values take these numbers.
fn fill(room: &mut Vec<Bits>, numbers: &[u128])
    requires { FitEach (widths room.old.items) numbers.now }
    ensures { room.new.items ≡ with_widths (widths room.old.items) numbers.now }
{
    for (i, number) in numbers.iter().enumerate() {
        room[i] = Bits::of(room[i].width(), *number);
    }
}
