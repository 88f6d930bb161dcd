//! The names that have a driver.

ghost use Rattle.std.specs.Prelude.{◌≡◌, List, ℕ, [], ◌∷◌, ◌++◌, OnOk};
ghost use Rattle.fir_base.specs.Lists.{In};
ghost use Rattle.ver_valid.specs.working.Judgement.{Judges};
ghost use Rattle.ver_valid.specs.working.Driven.{Drives, has};

use crate::misfit::Misfit;
use fir_base::{Name, Refused};
use indexmap::IndexSet;
use std::alloc::Global;

/// Names that have a driver, each one.
pub struct Driven {
    names: IndexSet<Vec<u8>>,
}

// Not derived, so that a drop is a call, which is proved once.
impl Drop for Driven {
    fn drop(self) {
        let Driven { names: _ } = self;
    }
}

impl Driven {
    /// None has a driver.
    pub fn new(alloc: Global) -> Driven
        ensures { Drives result [] }
    {
        Driven {
            names: IndexSet::new(alloc),
        }
    }

    /// Whether the name has a driver.
    pub fn has(&self, name: &Name) -> bool
        ensures { result ≡ has self.now name.now }
    {
        self.names.contains(name.as_bytes())
    }

    /// A name that has no driver yet has one now.
    pub fn drive(&mut self, alloc: Global, name: &Name) -> Result<(), Refused<Misfit>>
        ensures fresh { (ns : List (List ℕ)) → Drives self.old ns → Judges result (In ns name.now → ⊥) }
        ensures driven { OnOk result ((ns : List (List ℕ)) → Drives self.old ns → Drives self.new (ns ++ name.now ∷ [])) }
    {
        if self.has(name) {
            return Err(Refused::Fault(Misfit::Twice));
        }
        let name = Vec::from_slice(alloc, name.as_bytes())?;
        self.names.insert(name)?;
        Ok(())
    }
}
