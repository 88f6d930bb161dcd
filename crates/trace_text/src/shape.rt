//! The shape of a trace: which inputs and clocks a tick has, and which words the state.

ghost use Rattle.std.specs.Prelude.{◌≡◌, ◌^◌, ◌<◌, IfOk, IfSome, Ok, None, length};
ghost use Rattle.trace_text.specs.Shapes.{found, state_widths};
ghost use Rattle.trace_text.specs.working.Shapes.{IsShape, shape_of};
ghost use Rattle.trace_text.specs.working.TickWords.{AreWidths};

use crate::places::places_of;
use crate::shape_rules::{are_widths, is_state};
use fir_base::{MemoryOut, Name};
use std::alloc::Global;
use std::collections::BTreeMap;
use std::marker::Model;

/// A word of the state, or an array of words: its name in the emitted text, its width in bits, and for an
/// array how many words it has.
#[derive(Drop)]
pub struct StateWord {
    pub name: Name,
    pub width: u32,
    pub depth: Option<u32>,
}

/// What a name stands for: the place of its first word in the state, from 0, its width in bits, and for an
/// array how many words it has.
#[derive(Clone, Copy)]
pub struct FoundWord {
    pub place: usize,
    pub width: u32,
    pub depth: Option<u32>,
}

/// The shape of a trace: the widths of the inputs in bits, the number of clocks, and the words of the state,
/// the registers before the arrays.
#[derive(Drop)]
pub struct Shape {
    inputs: Vec<u32>,
    clocks: usize,
    state: Vec<StateWord>,
    /// Where each name's words stand.
    places: BTreeMap<Name, FoundWord>,
}

impl Model for Shape {
    ghost use Rattle.trace_text.specs.Shapes.{TraceShape};
    ghost use Rattle.trace_text.specs.working.Shapes.{IsShape, shape_of};
    ghost use Rattle.trace_text.specs.working.Places.{HasPlaces};

    ghost Value = { TraceShape };

    ghost view = { λ s. shape_of s.inputs.items s.clocks s.state.items };

    ghost invariant = { λ s. IsShape (shape_of s.inputs.items s.clocks s.state.items) × HasPlaces s.places s.state.items };
}

impl Shape {
    /// The shape of inputs of these widths, so many clocks and these words of the state. None where it is
    /// none: widths are 1 to 128, names are words, of which none stands twice, registers stand before
    /// arrays, an array has a word at least, and all arrays together 4194304 at most.
    pub fn new(
        alloc: Global,
        inputs: Vec<u32>,
        clocks: usize,
        state: Vec<StateWord>,
    ) -> Result<Option<Shape>, MemoryOut>
        ensures shape { IfOk result (λ o. IfSome o (λ s. s ≡ shape_of inputs.items clocks state.items)) }
        ensures whole { IfOk result (λ o. IfSome o (λ s. IsShape s)) }
        ensures none { result ≡ Ok None → IsShape (shape_of inputs.items clocks state.items) → ⊥ }
    {
        if !are_widths(inputs.as_slice()) || !is_state(state.as_slice()) {
            return Ok(None);
        }
        let Some(places) = places_of(alloc, state.as_slice())? else {
            return Ok(None);
        };
        Ok(Some(Shape {
            inputs,
            clocks,
            state,
            places,
        }))
    }

    /// The widths of the inputs in bits.
    pub fn inputs(&self) -> &[u32]
        ensures widths { result.now ≡ self.now.inputs }
        ensures narrow { AreWidths result.now }
    {
        self.inputs.as_slice()
    }

    /// The number of clocks.
    pub fn clocks(&self) -> usize
        ensures { result ≡ self.now.clocks }
    {
        self.clocks
    }

    /// The words of the state.
    pub fn state(&self) -> &[StateWord]
        ensures words { result.now ≡ self.now.state }
        ensures whole { IsShape self.now }
    {
        self.state.as_slice()
    }

    /// What a name stands for.
    pub fn find(&self, name: &Name) -> Option<FoundWord>
        ensures found { result ≡ found self.now name.now }
        ensures whole { IsShape self.now }
        ensures few { length (state_widths self.now.state) < 2 ^ 64 }
    {
        self.places.get(name).copied()
    }
}
