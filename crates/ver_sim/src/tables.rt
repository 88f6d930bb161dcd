//! What is looked up by name while a plan is made.

ghost use Rattle.std.specs.Prelude.{◌≡◌, IfOk, length, slice_get, slice_index};
ghost use Rattle.fir_base.specs.Lists.{In};
ghost use Rattle.fir_base.specs.Ticks.{Env};
ghost use Rattle.fir_base.specs.Words.{is_among};
ghost use Rattle.ver_ast.specs.declared.tree.Verilog.{Verilog as Tree};
ghost use Rattle.ver_ast.specs.Nets.{nets, clocks, names_of, output_clocks, reset_targets, variables, variable_names, width_among};
ghost use Rattle.ver_ast.specs.Valid.{Valid};
ghost use Rattle.ver_sim.specs.working.Valued.{valued, place_among};
ghost use Rattle.ver_sim.specs.working.FlatStates.{base_of, depth_of};
ghost use Rattle.ver_sim.specs.ClocksShown.{ClocksShown};
ghost use Rattle.ver_sim.specs.working.Names.{IsNumbering};
ghost use Rattle.ver_sim.specs.working.Tables.{Know};

use crate::declarations::{
    Span, clock_output_names, net_widths, reset_names, spans, valued_names, word_names,
};
use crate::names::Numbers;
use fir_base::{MemoryOut, Name};
use std::alloc::Global;
use ver_ast::Verilog;

/// The places of nets and clocks among the values, the widths of nets, where words stand in the state, and which
/// names are clock outputs, and registers with an asynchronous block.
#[derive(Drop)]
pub struct Tables {
    places: Numbers,
    widths: Vec<u32>,
    words: Numbers,
    spans: Vec<Span>,
    clock_outputs: Numbers,
    resets: Numbers,
}

impl Tables {
    /// The tables of a tree.
    pub fn new(alloc: Global, v: &Verilog) -> Result<Tables, MemoryOut>
        requires { Valid v.now }
        ensures { IfOk result (λ t. Know v.now t) }
    {
        Ok(Tables {
            places: places(alloc, v)?,
            widths: net_widths(alloc, v)?,
            words: words(alloc, v)?,
            spans: spans(alloc, v)?,
            clock_outputs: clock_outputs(alloc, v)?,
            resets: resets(alloc, v)?,
        })
    }

    /// The place of a net or a clock among the values.
    pub fn place(&self, name: &Name) -> usize
        ensures { (v : Tree) → Know v self.now → In (valued v) name.now → result ≡ place_among (valued v) name.now }
    {
        self.places.number(name).unwrap_or(0)
    }

    /// The number of a clock, counted from 0 in port order.
    pub fn clock(&self, name: &Name) -> usize
        ensures { (v : Tree) → Know v self.now → In (clocks v) name.now → (env : Env) → ClocksShown v env → result ≡ env name.now }
    {
        self.place(name).saturating_sub(self.net_count())
    }

    /// How many nets there are.
    pub fn net_count(&self) -> usize
        ensures { (v : Tree) → Know v self.now → result ≡ length (nets v) }
    {
        self.widths.len()
    }

    /// The width of a net in bits.
    pub fn width(&self, name: &Name) -> u32
        ensures { (v : Tree) → Know v self.now → In (names_of (nets v)) name.now → result ≡ width_among (nets v) name.now }
    {
        match self.places.number(name) {
            Some(place) => width_at(self.widths.as_slice(), place),
            None => 0,
        }
    }

    /// Where the words of a register or an array stand in the state.
    pub fn span(&self, name: &Name) -> Span
        ensures { (v : Tree) → Know v self.now → In (variable_names (variables v)) name.now → result ≡ record { base = base_of (variables v) name.now; depth = depth_of (variables v) name.now } }
    {
        let none = Span { base: 0, depth: 0 };
        match self.words.number(name) {
            Some(place) => span_at(self.spans.as_slice(), place).unwrap_or(none),
            None => none,
        }
    }

    /// Whether it is a clock output.
    pub fn is_clock_output(&self, name: &Name) -> bool
        ensures { (v : Tree) → Know v self.now → result ≡ is_among (output_clocks v) name.now }
    {
        self.clock_outputs.has(name)
    }

    /// Whether it is a register with an asynchronous block.
    pub fn is_reset(&self, name: &Name) -> bool
        ensures { (v : Tree) → Know v self.now → result ≡ is_among (reset_targets v) name.now }
    {
        self.resets.has(name)
    }
}

fn width_at(widths: &[u32], place: usize) -> u32
    ensures { result ≡ slice_index widths.now place }
{
    if place < widths.len() {
        widths[place]
    } else {
        0
    }
}

fn span_at(spans: &[Span], place: usize) -> Option<Span>
    ensures { result ≡ slice_get spans.now place }
{
    spans.get(place).copied()
}

fn places(alloc: Global, v: &Verilog) -> Result<Numbers, MemoryOut>
    ensures { IfOk result (IsNumbering (valued v.now)) }
{
    let names = valued_names(alloc, v)?;
    Numbers::new(alloc, names.as_slice())
}

fn words(alloc: Global, v: &Verilog) -> Result<Numbers, MemoryOut>
    ensures { IfOk result (IsNumbering (variable_names (variables v.now))) }
{
    let names = word_names(alloc, v)?;
    Numbers::new(alloc, names.as_slice())
}

fn clock_outputs(alloc: Global, v: &Verilog) -> Result<Numbers, MemoryOut>
    ensures { IfOk result (IsNumbering (output_clocks v.now)) }
{
    let names = clock_output_names(alloc, v)?;
    Numbers::new(alloc, names.as_slice())
}

fn resets(alloc: Global, v: &Verilog) -> Result<Numbers, MemoryOut>
    ensures { IfOk result (IsNumbering (reset_targets v.now)) }
{
    let names = reset_names(alloc, v)?;
    Numbers::new(alloc, names.as_slice())
}
