//! A tick, with room for the widest line of its shape.

ghost use Rattle.std.specs.Prelude.{◌≡◌, IfOk};
ghost use Rattle.trace_text.specs.working.Rooms.{HasRoom};
ghost use Rattle.trace_text.specs.working.TickWords.{ReadsTickWords};

use crate::clock_list::read_clock_list;
use crate::fault::Cause;
use crate::shape::Shape;
use crate::tick_faults::judge;
use crate::tick_words::read_values;
use crate::words::first_word;
use fir_base::MemoryOut;
use std::alloc::Global;
use std::marker::Model;
use std::mem::swap;

/// A tick: a value for each input, and the numbers of the clocks that rise, from 0, rising.
#[derive(Drop)]
pub struct Tick {
    inputs: Vec<u128>,
    /// Room for all clocks, of which the first are named.
    clocks: Vec<usize>,
    named: usize,
    /// Room into which the next line is read; it becomes the tick where nothing is wrong with the line.
    next_inputs: Vec<u128>,
    next_clocks: Vec<usize>,
}

impl Model for Tick {
    ghost use Rattle.std.specs.Prelude.{◌≡◌, ◌≤◌, length};
    ghost use Rattle.trace_text.specs.working.Rooms.{TickRoom, room_of};

    ghost Value = { TickRoom };

    ghost view = { λ t. room_of t.inputs.items t.clocks.items t.named };

    ghost invariant = { λ t. (t.named ≤ length t.clocks.items) × (length t.next_inputs.items ≡ length t.inputs.items) × (length t.next_clocks.items ≡ length t.clocks.items) };
}

impl Tick {
    /// Room for a tick of the shape.
    pub fn new(alloc: Global, shape: &Shape) -> Result<Tick, MemoryOut>
        ensures { IfOk result (λ t. HasRoom shape.now t) }
    {
        Ok(Tick {
            inputs: vec![in alloc; 0; shape.inputs().len()]?,
            clocks: vec![in alloc; 0; shape.clocks()]?,
            named: 0,
            next_inputs: vec![in alloc; 0; shape.inputs().len()]?,
            next_clocks: vec![in alloc; 0; shape.clocks()]?,
        })
    }

    /// The values of the inputs, in port order.
    pub fn inputs(&self) -> &[u128]
        ensures { result.now ≡ self.now.tick.inputs }
    {
        self.inputs.as_slice()
    }

    /// The numbers of the clocks that rise.
    pub fn clocks(&self) -> &[usize]
        ensures { result.now ≡ self.now.tick.clocks }
    {
        &self.clocks.as_slice()[..self.named]
    }

    /// Reads the words of a line, or tells what is wrong with them and leaves the tick as it was.
    pub(crate) fn read_words(&mut self, shape: &Shape, line: &[u8]) -> Result<(), Cause>
        requires room { HasRoom shape.now self.old }
        ensures reads { ReadsTickWords shape.now line.now self.old.tick self.new.tick result }
        ensures room { HasRoom shape.now self.new }
    {
        let widths = shape.inputs();
        let (clock_list, rest) = first_word(line);
        let clocks = read_clock_list(clock_list, self.next_clocks.as_mut_slice());
        let values = read_values(rest, widths, self.next_inputs.as_mut_slice());
        let named = judge(widths, clocks, values)?;
        swap(&mut self.inputs, &mut self.next_inputs);
        swap(&mut self.clocks, &mut self.next_clocks);
        self.named = named;
        Ok(())
    }
}
