//! A simulation under way on a trace.

use fir_base::Refused;
use std::alloc::Global;
use trace_text::TraceFault;

/// An item that lacks a value at a tick: the place of its first word (line and column from 1), and the tick's number,
/// counted from 1.
#[derive(Clone, Copy)]
pub struct Lack {
    pub line: u32,
    pub col: u32,
    pub tick: u64,
}

/// Why a simulation does not go on.
#[derive(Clone, Copy)]
pub enum Stop {
    /// The next line of the trace is bad.
    BadLine(TraceFault),
    /// At the next tick an item lacks a value.
    Lacking(Lack),
}

/// A simulation under way: what is simulated, and how far it has come on a trace.
pub trait Simulation {
    ghost use Rattle.std.specs.Prelude.{◌≡◌, ◌<◌, ◌≤◌, ℕ, List, true, Ok, length};
    ghost use Rattle.trace_lines.specs.declared.simulation.Lack.{Lack};
    ghost use Rattle.trace_lines.specs.Saying.{Saying, SaysFront};
    ghost use Rattle.trace_lines.specs.working.Stepping.{Steps};

    /// What is simulated, and how its lines are printed.
    ghost simulated: { Type 0 };

    /// This stays from tick to tick.
    ghost of: { Self → simulated };

    /// Which lines are those of the ticks that are said.
    ghost ran: { simulated → Saying → List ℕ → Type 0 };

    /// Which lines are those of the ticks of a trace before one at which this item lacks a value.
    ghost lacked: { simulated → List ℕ → Lack → List ℕ → Type 0 };

    /// Whether it stands at a place of this trace.
    ghost is_ready: { List ℕ → Self → Type 0 };

    /// The place in the trace up to which it has come, in bytes.
    ghost place: { Self → ℕ };

    /// Whether it has come there by these lines.
    ghost has_made: { List ℕ → Self → List ℕ → Type 0 };

    /// Takes the next tick of the trace and appends its line; false where no tick is left. Where no line is made,
    /// `lines` is as before.
    fn step(
        &mut self,
        alloc: Global,
        trace: &[u8],
        lines: &mut Vec<u8>,
    ) -> Result<bool, Refused<Stop>>
        requires { is_ready trace.now self.old }
        ensures ready { is_ready trace.now self.new }
        ensures stays { of self.new ≡ of self.old }
        ensures later { result ≡ Ok true → place self.old < place self.new }
        ensures steps { (printed : List ℕ) → has_made trace.now self.old printed → Steps (ran (of self.old)) (lacked (of self.old)) trace.now (has_made trace.now self.new) printed lines.old.items lines.new.items result };

    /// The place is one of the trace.
    ghost is_within: { (trace : List ℕ) (s : Self) → is_ready trace s → place s ≤ length trace };

    /// The lines that it has made are those of the ticks at the front of the trace.
    ghost made_front: { (trace : List ℕ) (s : Self) (printed : List ℕ) → has_made trace s printed → ran (of s) (SaysFront trace) printed };
}
