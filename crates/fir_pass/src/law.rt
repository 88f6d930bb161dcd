//! A stage of a circuit, and a pass from one stage to the next.

ghost use Rattle.std.specs.Prelude.{IfOk};
ghost use Rattle.fir_ast.specs.Circuits.{CircuitTree};
ghost use Rattle.fir_pass.specs.working.Law.{IfFault, Passes, Reports};

use fir_base::Refused;
use std::alloc::Global;

/// A stage on the way of a circuit.
pub trait Meant {
    /// Whether it is a stage of that circuit: then it has all that the circuit means and that later passes read, which is
    /// what it allows at each tick, whether that is settled in one way, its faults, its shape with its names, and its counts.
    ghost is_of: { CircuitTree → Self → Type 0 };
}

/// A step on the way of a circuit.
pub trait Pass {
    type In: Meant;

    type Out: Meant;

    /// A fault, and what the pass was given.
    type Fault;

    /// That none of the faults that it looks for stands in the circuit.
    ghost clear: { CircuitTree → Type 0 };

    /// That this fault of the circuit is reported, where none stands of those that earlier passes look for.
    ghost reports: { CircuitTree → Self.Fault → Type 0 };

    /// What it was given comes back with the fault, unchanged.
    ghost hands_back: { Self.In → Self.Fault → Type 0 };

    /// Takes a circuit to the next stage, or reports its first fault of those that the pass looks for.
    fn run(&self, alloc: Global, x: Self::In) -> Result<Self::Out, Refused<Self::Fault>>
        ensures ok { IfOk result (Passes Self.In.is_of Self.Out.is_of clear x) }
        ensures fault { IfFault result (Reports Self.In.is_of reports x) }
        ensures back { IfFault result (λ f. hands_back x f) };
}
