//! Width expressions under numbers, and the bounds that they and the rules of a circuit make.

ghost use Rattle.std.specs.Prelude.{◌≡◌, ◌++◌, List, [], ◌∷◌, length, true, slice_get, unwrap_or, IfOk, OnOk};
ghost use Rattle.fir_meaning.specs.WidthExpressions.{Rule, Width, known, unknown};
ghost use Rattle.fir_meaning.specs.WidthRules.{bound};
ghost use Rattle.fir_width.specs.working.FlatWidths.{greater_each, guarded_each};
ghost use Rattle.fir_infer_widths.specs.working.Numbered.{IsTermOf, Keeps};
ghost use Rattle.fir_width.specs.working.StandingWidths.{Has, Stands};

use fir_base::MemoryOut;
use fir_least_widths::{Bound, OVER, Term};
use std::alloc::Global;

/// The expressions have the numbers from 0 on, in the order in which they come.
#[derive(Drop)]
pub struct Arena {
    /// Whether the width of each number is that of an expression; else it is an unknown.
    pub written: Vec<bool>,
    pub bounds: Vec<Bound>,
}

impl Arena {
    /// Nothing has a number yet.
    pub fn new(alloc: Global) -> Arena
        ensures { Keeps [] [] result }
    {
        Arena {
            written: Vec::new(alloc),
            bounds: Vec::new(alloc),
        }
    }

    /// How many expressions have numbers.
    pub fn len(&self) -> usize
        ensures { (meant : List Width) (rules : List Rule) → Keeps meant rules self.now → result ≡ length meant }
    {
        self.written.len()
    }

    /// Gives the next number to a leaf whose width is not written.
    pub fn push_unknown(&mut self) -> Result<(), MemoryOut>
        ensures { (meant : List Width) (rules : List Rule) → Keeps meant rules self.old → OnOk result (Keeps (meant ++ unknown (length meant) ∷ []) rules self.new) }
    {
        self.written.push(false)?;
        Ok(())
    }

    /// Gives it to a width that is written.
    pub fn push_known(&mut self, width: u128) -> Result<usize, MemoryOut>
        ensures { (meant : List Width) (rules : List Rule) → Keeps meant rules self.old → IfOk result (λ number. (number ≡ length meant) × Keeps (meant ++ known width ∷ []) rules self.new) }
    {
        self.push(Term::Known(width.min(u128::from(OVER)) as u32))
    }

    /// Gives it to an operation on numbers.
    pub fn push(&mut self, term: Term) -> Result<usize, MemoryOut>
        ensures { (meant : List Width) (rules : List Rule) (e : Width) → Keeps meant rules self.old → IsTermOf meant e term → IfOk result (λ number. (number ≡ length meant) × Keeps (meant ++ e ∷ []) rules self.new) }
    {
        let number = self.written.len();
        self.written.push(true)?;
        self.bounds.push(Bound {
            unknown: number,
            term,
        })?;
        Ok(number)
    }

    /// Gives the next numbers to the greater of each two of so many, which have the numbers from `one` and
    /// from `other` on; the first of the new numbers.
    pub fn push_greater(
        &mut self,
        one: usize,
        other: usize,
        count: usize,
    ) -> Result<usize, MemoryOut>
        ensures { (meant : List Width) (rules : List Rule) (vs ws : List Width) → Keeps meant rules self.old → length vs ≡ count → length ws ≡ count → Stands meant one vs → Stands meant other ws → IfOk result (λ first. (first ≡ length meant) × Keeps (meant ++ greater_each vs ws) rules self.new) }
    {
        let first = self.written.len();
        for i in 0..count {
            self.push(Term::Greater(one.saturating_add(i), other.saturating_add(i)))?;
        }
        Ok(first)
    }

    /// Gives them to each of so many, over where the condition is over.
    pub fn push_guarded(
        &mut self,
        condition: usize,
        one: usize,
        count: usize,
    ) -> Result<usize, MemoryOut>
        ensures { (meant : List Width) (rules : List Rule) (c : Width) (ws : List Width) → Keeps meant rules self.old → length ws ≡ count → Has meant condition c → Stands meant one ws → IfOk result (λ first. (first ≡ length meant) × Keeps (meant ++ guarded_each c ws) rules self.new) }
    {
        let first = self.written.len();
        for i in 0..count {
            self.push(Term::Guarded(condition, one.saturating_add(i)))?;
        }
        Ok(first)
    }

    /// An unknown is at least as wide as what drives it; a written width asks for nothing.
    pub fn ask(&mut self, driven: usize, driver: usize) -> Result<(), MemoryOut>
        ensures { (meant : List Width) (rules : List Rule) (v w : Width) → Keeps meant rules self.old → Has meant driven v → Has meant driver w → OnOk result (Keeps meant (rules ++ bound v w) self.new) }
    {
        if !self.is_written(driven) {
            self.bounds.push(Bound {
                unknown: driven,
                term: Term::Same(driver),
            })?;
        }
        Ok(())
    }

    /// Whether a number has no unknown of its own.
    fn is_written(&self, number: usize) -> bool
        ensures { result ≡ unwrap_or (slice_get self.now.written.items number) true }
    {
        match self.written.get(number) {
            Some(is_written) => *is_written,
            None => true,
        }
    }
}
