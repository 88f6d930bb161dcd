//! The names that are taken.

ghost use Rattle.std.specs.Prelude.{◌≡◌, ◌^◌, ◌<◌, true, OnOk};
ghost use Rattle.std.specs.Cmp.Lexicographic.{slice_cmp};
ghost use Rattle.std.specs.Ordering.{nat_cmp};
ghost use Rattle.std.specs.BTreeSet.{IsEmpty, Updates};
ghost use Rattle.fir_net_names.specs.working.NameSets.{ArePassed, IsPassed};

use fir_base::{MemoryOut, Name};
use std::alloc::Global;
use std::collections::{BTreeMap, BTreeSet};

/// Names that are taken, and from which number on a free name of a base is searched.
#[derive(Drop)]
pub struct Taken {
    pub names: BTreeSet<Name>,
    /// For a base a number below which all are taken. Names are only ever added, so that they stay taken.
    starts: BTreeMap<Name, usize>,
    ghost passed: { ArePassed names starts },
}

impl Taken {
    /// No name is taken.
    pub fn new(alloc: Global) -> Taken
        ensures { IsEmpty result.names }
    {
        Taken {
            names: BTreeSet::new(alloc),
            starts: BTreeMap::new(alloc),
        }
    }

    /// Takes a name.
    pub fn insert(&mut self, name: Name) -> Result<(), MemoryOut>
        ensures { OnOk result (Updates (slice_cmp nat_cmp) self.old.names self.new.names name true) }
    {
        self.names.insert(name)?;
        Ok(())
    }

    /// A number below which all names of the base are taken.
    pub fn start(&self, base: &Name) -> usize
        ensures { IsPassed self.now.names base.now result }
    {
        match self.starts.get(base) {
            Some(start) => *start,
            None => 0,
        }
    }

    /// From this number on the names of the base are searched from now on.
    pub fn set_start(&mut self, base: Name, start: usize) -> Result<(), MemoryOut>
        requires { IsPassed self.old.names base start }
        ensures { self.new.names ≡ self.old.names }
    {
        self.starts.insert(base, start)?;
        Ok(())
    }
}
