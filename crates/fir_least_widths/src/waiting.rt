//! The bounds that have to be looked at.

ghost use Rattle.std.specs.Prelude.{◌≡◌, ◌<◌, Bool, true, false, length, replicate, slice_set, IfOk, IfSome, IfNone, OnOk};
ghost use Rattle.fir_least_widths.specs.working.Waiting.{AllWait, NoneWaits, PlacesWithin, Takes};

use fir_base::MemoryOut;
use std::alloc::Global;
use std::marker::Model;

/// Which of so many bounds wait, by their places from 0 on. The stack has each that waits once, so
/// it is never longer than there are bounds.
#[derive(Drop)]
pub struct Waiting {
    stack: Vec<usize>,
    waits: Vec<bool>,
}

impl Model for Waiting {
    ghost use Rattle.std.specs.Prelude.{Bool, List};
    ghost use Rattle.fir_least_widths.specs.working.Waiting.{IsStackOf};

    ghost Value = { List Bool };

    ghost view = { λ w. w.waits.items };

    ghost invariant = { λ w. IsStackOf w.waits.items w.stack.items };
}

impl Waiting {
    /// All of so many, of which the first is taken first.
    pub fn all(alloc: Global, count: usize) -> Result<Waiting, MemoryOut>
        ensures { IfOk result (λ w. w ≡ replicate count true) }
    {
        let mut stack = Vec::with_capacity(alloc, count)?;
        for i in 0..count {
            stack.push(count - 1 - i)?;
        }
        Ok(Waiting {
            stack,
            waits: vec![in alloc; true; count]?,
        })
    }

    /// Takes one that waits, if there is one.
    pub fn take(&mut self) -> Option<usize>
        ensures some { IfSome result (Takes self.old self.new) }
        ensures none { IfNone result (NoneWaits self.old) }
    {
        let place = self.stack.pop()?;
        self.waits[place] = false;
        Some(place)
    }

    /// Lets it wait, too.
    pub fn add(&mut self, place: usize) -> Result<(), MemoryOut>
        requires { place < length self.old }
        ensures { OnOk result (self.new ≡ slice_set self.old place true) }
    {
        if !self.waits[place] {
            self.stack.push(place)?;
            self.waits[place] = true;
        }
        Ok(())
    }

    /// Lets all of them wait, too.
    pub fn add_all(&mut self, places: &[usize]) -> Result<(), MemoryOut>
        requires { PlacesWithin places.now (length self.old) }
        ensures { OnOk result (AllWait self.old self.new places.now (length places.now)) }
    {
        for place in places {
            self.add(*place)?;
        }
        Ok(())
    }
}
