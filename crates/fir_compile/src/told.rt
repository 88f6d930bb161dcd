//! The fault that is told of one that a chain of passes reported.

ghost use Rattle.std.specs.Prelude.{◌≡◌};
ghost use Rattle.fir_ast.specs.Faults.{Fault};
ghost use Rattle.fir_ast.specs.working.CodeFaults.{fault_of};
ghost use Rattle.fir_compile.specs.working.Told.{told_by};

use fir_ast::FirFault;
use fir_pass::Either;

/// A fault of a pass.
pub trait Told {
    /// What is told of it.
    ghost told: { Self → Fault };

    /// The fault that is told, without what the pass was given.
    fn into_fault(self) -> FirFault
        ensures { fault_of result ≡ told self };
}

impl<T: Drop> Told for (FirFault, T) {
    ghost told = { λ f. fault_of f.0 };

    fn into_fault(self) -> FirFault {
        let (fault, _given) = self;
        fault
    }
}

impl<A: Told, B: Told> Told for Either<A, B> {
    ghost told = { told_by A.told B.told };

    fn into_fault(self) -> FirFault {
        match self {
            Either::One(fault) => fault.into_fault(),
            Either::Two(fault) => fault.into_fault(),
        }
    }
}
