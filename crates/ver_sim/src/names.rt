//! Names and their numbers.

ghost use Rattle.std.specs.Prelude.{◌≡◌, List, ℕ, ◌∷◌, [], ◌++◌, IfOk, OnOk, map, length, is_some};
ghost use Rattle.ver_sim.specs.working.Names.{number_in, IsNumbering};

use fir_base::{MemoryOut, Name};
use std::alloc::Global;
use std::collections::BTreeMap;

/// The numbers of names, counted from 0 in the order of a list: a place at which the name stands.
pub struct Numbers {
    numbers: BTreeMap<Name, usize>,
}

// Not derived, so that a drop is a call, which is proved once.
impl Drop for Numbers {
    fn drop(self) {
        let Numbers { numbers: _ } = self;
    }
}

impl Numbers {
    /// The numbers of these names.
    pub fn new(alloc: Global, names: &[&Name]) -> Result<Numbers, MemoryOut>
        ensures { IfOk result (IsNumbering (map (λ n. n.now) names.now)) }
    {
        let mut numbers = Numbers {
            numbers: BTreeMap::new(alloc),
        };
        for (i, name) in names.iter().enumerate() {
            numbers.add(alloc, name, i)?;
        }
        Ok(numbers)
    }

    /// Gives the name that number.
    fn add(&mut self, alloc: Global, name: &Name, number: usize) -> Result<(), MemoryOut>
        ensures { OnOk result ((names : List (List ℕ)) → number ≡ length names → IsNumbering names self.old → IsNumbering (names ++ name.now ∷ []) self.new) }
    {
        self.numbers.insert(name.copy(alloc)?, number)?;
        Ok(())
    }

    /// The number of the name, if it has one.
    pub fn number(&self, name: &Name) -> Option<usize>
        ensures { result ≡ number_in self.now name.now }
    {
        self.numbers.get(name).copied()
    }

    /// Whether the name has a number.
    pub fn has(&self, name: &Name) -> bool
        ensures { result ≡ is_some (number_in self.now name.now) }
    {
        self.number(name).is_some()
    }
}
