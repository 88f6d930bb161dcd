//! Two passes in a row, and as one.

ghost use Rattle.std.specs.Prelude.{IfOk};
ghost use Rattle.fir_pass.specs.working.Law.{IfFault, Passes, Reports};
ghost use Rattle.fir_pass.specs.working.Either.{clear_of_both, reported_by, HandsBack};

use crate::alternative::Either;
use crate::law::{Meant, Pass};
use fir_base::Refused;
use std::alloc::Global;

/// Runs one pass and then the other. A fault is the first pass's on what is given, or the second's on what the first
/// made of it, and then the circuit is clear of all that the first looks for.
pub fn then<A: Pass, B: Pass<In = A::Out>>(
    alloc: Global,
    first: &A,
    second: &B,
    x: A::In,
) -> Result<B::Out, Refused<Either<A::Fault, B::Fault>>>
    ensures ok { IfOk result (Passes A.In.is_of B.Out.is_of (clear_of_both A.clear B.clear) x) }
    ensures fault { IfFault result (Reports A.In.is_of (reported_by A.clear A.reports B.reports) x) }
    ensures back { IfFault result (λ f. HandsBack A.In.is_of A.Out.is_of A.clear A.hands_back B.hands_back x f) }
{
    let made = match first.run(alloc, x) {
        Ok(made) => made,
        Err(Refused::Fault(fault)) => return Err(Refused::Fault(Either::One(fault))),
        Err(Refused::Memory) => return Err(Refused::Memory),
    };
    match second.run(alloc, made) {
        Ok(last) => Ok(last),
        Err(Refused::Fault(fault)) => Err(Refused::Fault(Either::Two(fault))),
        Err(Refused::Memory) => Err(Refused::Memory),
    }
}

/// Two passes as one, for chains of more than two.
#[derive(Drop)]
pub struct Chain<A: Pass, B: Pass<In = A::Out>> {
    pub first: A,
    pub second: B,
}

impl<A: Pass, B: Pass<In = A::Out>> Pass for Chain<A, B> {
    type In = A::In;

    type Out = B::Out;

    type Fault = Either<A::Fault, B::Fault>;

    ghost clear = { clear_of_both A.clear B.clear };

    ghost reports = { reported_by A.clear A.reports B.reports };

    ghost hands_back = { HandsBack A.In.is_of A.Out.is_of A.clear A.hands_back B.hands_back };

    fn run(&self, alloc: Global, x: A::In) -> Result<B::Out, Refused<Either<A::Fault, B::Fault>>> {
        then(alloc, &self.first, &self.second, x)
    }
}
