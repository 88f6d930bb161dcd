//! New numbers for what is kept of a list.

ghost use Rattle.std.specs.Prelude.{◌≡◌, IfOk, length};
ghost use Rattle.fir_drop_dead.specs.working.Numbers.{place};
ghost use Rattle.fir_drop_dead.specs.working.Marks.{mark_at};

use crate::marks::mark_at;
use fir_base::MemoryOut;
use std::alloc::Global;
use std::marker::Model;

/// Which items of a list are kept, and the places that they have among themselves.
#[derive(Drop)]
pub struct Numbering {
    marks: Vec<bool>,
    /// How many are kept before each item.
    places: Vec<usize>,
    /// How many are kept.
    count: usize,
}

impl Model for Numbering {
    ghost use Rattle.std.specs.Prelude.{Bool, List, length};
    ghost use Rattle.fir_drop_dead.specs.working.Numbers.{ArePlaces};

    ghost Value = { List Bool };

    ghost view = { λ n. n.marks.items };

    ghost invariant = { λ n. ArePlaces n.marks.items (length n.marks.items) n.count n.places.items };
}

impl Numbering {
    /// The new numbers where the marked items are kept.
    pub fn new(alloc: Global, marks: Vec<bool>) -> Result<Numbering, MemoryOut>
        ensures { IfOk result (λ n. n ≡ marks.items) }
    {
        let mut places = Vec::with_capacity(alloc, marks.len())?;
        let mut count = 0;
        for mark in marks.as_slice() {
            places.push(count)?;
            if *mark {
                count += 1;
            }
        }
        Ok(Numbering {
            marks,
            places,
            count,
        })
    }

    /// Which items are kept.
    pub fn marks(&self) -> &[bool]
        ensures { result.now ≡ self.now }
    {
        self.marks.as_slice()
    }

    /// Whether an item is kept.
    pub fn has(&self, number: usize) -> bool
        ensures { result ≡ mark_at self.now number }
    {
        mark_at(self.marks.as_slice(), number)
    }

    /// The new number of an item that is kept.
    pub fn place(&self, number: usize) -> usize
        ensures { result ≡ place self.now number }
    {
        match self.places.as_slice().get(number) {
            Some(place) => *place,
            None => self.count,
        }
    }
}
