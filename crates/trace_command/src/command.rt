//! What a command has to say that simulates.

use fir_base::Refused;
use fir_cli::Status;
use fir_io::Sink;
use std::alloc::Global;
use trace_lines::Finish;

/// A command that simulates what the text of one file says, on the trace in another.
pub trait SimulationCommand {
    ghost use Rattle.std.specs.Prelude.{◌≡◌, ◌≤◌, ℕ, List, length};
    ghost use Rattle.trace_command.specs.Simulates.{SimulationMeaning};
    ghost use Rattle.trace_command.specs.working.Laws.{IsOfRefusal, FrontsBegin};
    ghost use Rattle.trace_command.specs.working.SimulationEndings.{IsMachineFor, RanTicks};

    /// What is simulated, made of the text.
    type Machine: Drop;

    /// By which line it refuses a text, which it takes, and which lines it prints.
    ghost says: { Self → SimulationMeaning };

    /// Which is made of which text.
    ghost is_of: { List ℕ → Self.Machine → Type 0 };

    /// The status of a text that is refused, and of a tick at which an item lacks a value.
    fn status(&self) -> Status
        ensures is { result ≡ (says self.now).status }
        ensures of_refusal { IsOfRefusal result };

    /// What the text says, or the line that refuses it.
    fn machine_of(&self, alloc: Global, text: &[u8]) -> Result<Self::Machine, Refused<Vec<u8>>>
        requires { length text.now ≤ 16777216 }
        ensures { IsMachineFor (says self.now) is_of text.now result };

    /// Runs the ticks of the trace and puts their lines to the output.
    fn run<S: Sink>(
        &self,
        alloc: Global,
        machine: Self::Machine,
        trace: &[u8],
        out: &mut S,
    ) -> Finish
        requires { (text : List ℕ) × is_of text machine }
        ensures { (text : List ℕ) → is_of text machine → RanTicks (says self.now) text trace.now (S.seen out.old) (S.seen out.new) result };

    /// The lines of the first ticks of a trace begin those of the whole trace.
    fn fronts_begin(&self)
        ensures { FrontsBegin (says self.now) };
}
