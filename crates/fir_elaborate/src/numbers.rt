//! Where the leaves and the arrays of a copy stand in the whole.

ghost use Rattle.std.specs.Prelude.{◌≡◌, ◌+◌, IfOk};
ghost use Rattle.fir_meaning.specs.working.Numberings.{number};
ghost use Rattle.fir_elaborate.specs.working.Walks.{numbering_of};

use fir_base::MemoryOut;

/// The numbers of the leaves and of the arrays of a copy.
#[derive(Clone, Copy)]
pub struct Numbers {
    pub module_number: usize,
    /// How many leaves its ports have.
    pub ports: usize,
    /// The number that the first of these has in the whole.
    pub first: usize,
    /// The number that the first of its other leaves has.
    pub own: usize,
    /// The number that the first of its arrays has.
    pub array: usize,
}

/// Some of the leaves and of the arrays of a module: each from one on and before another.
#[derive(Clone, Copy)]
pub struct Stretch {
    pub from: usize,
    pub upto: usize,
    pub arrays_from: usize,
    pub arrays_upto: usize,
}

impl Numbers {
    /// The number that a leaf of the module has in the whole.
    pub fn number(self, leaf: usize) -> Result<usize, MemoryOut>
        ensures { IfOk result (λ y. y ≡ number (numbering_of self) leaf) }
    {
        if leaf < self.ports {
            self.first.checked_add(leaf).ok_or(MemoryOut)
        } else {
            self.own.checked_add(leaf - self.ports).ok_or(MemoryOut)
        }
    }

    /// The number that an array of the module has in the whole.
    pub fn array_number(self, array: usize) -> Result<usize, MemoryOut>
        ensures { IfOk result (λ y. y ≡ self.array + array) }
    {
        self.array.checked_add(array).ok_or(MemoryOut)
    }
}
