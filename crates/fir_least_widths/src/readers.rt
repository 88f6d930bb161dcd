//! For each unknown, the bounds that read it.

ghost use Rattle.std.specs.Prelude.{◌≡◌, ◌<◌, [], ◌∷◌, length, IfOk, OnOk, vec_len};
ghost use Rattle.fir_least_widths.specs.working.Bounds.{BoundsWithin, TermWithin, reads};
ghost use Rattle.fir_least_widths.specs.working.Readers.{AllRead, Notes, ReadersWithin};

use crate::bound::{Bound, Term};
use fir_base::MemoryOut;
use std::alloc::Global;

/// For each unknown the places, from 0 on, of the bounds whose terms read it.
pub fn readers_of(
    alloc: Global,
    bounds: &[Bound],
    unknowns: usize,
) -> Result<Vec<Vec<usize>>, MemoryOut>
    requires { BoundsWithin bounds.now unknowns }
    ensures long { IfOk result (λ r. length r.items ≡ unknowns) }
    ensures read { IfOk result (λ r. AllRead bounds.now r.items (length bounds.now)) }
    ensures within { IfOk result (λ r. ReadersWithin r.items (length bounds.now)) }
{
    let mut readers = no_readers(alloc, unknowns)?;
    for (place, bound) in bounds.iter().enumerate() {
        note_term(&mut readers, &bound.term, place)?;
    }
    Ok(readers)
}

/// So many empty lists.
fn no_readers(alloc: Global, unknowns: usize) -> Result<Vec<Vec<usize>>, MemoryOut>
    ensures long { IfOk result (λ r. length r.items ≡ unknowns) }
    ensures none { IfOk result (λ r. ReadersWithin r.items 0) }
{
    let mut readers = Vec::with_capacity(alloc, unknowns)?;
    for _ in 0..unknowns {
        readers.push(Vec::new(alloc))?;
    }
    Ok(readers)
}

/// Notes the place of a bound at all unknowns that its term reads.
fn note_term(readers: &mut Vec<Vec<usize>>, term: &Term, place: usize) -> Result<(), MemoryOut>
    requires { TermWithin term.now (vec_len readers.old) }
    ensures { OnOk result (Notes readers.old.items readers.new.items (reads term.now) place) }
{
    match *term {
        Term::Known(_) => Ok(()),
        Term::Same(a) => note(readers, a, place),
        Term::Single(_, _, a, _, _) => note(readers, a, place),
        Term::Pair(_, _, a, b) => note_two(readers, a, b, place),
        Term::Greater(a, b) => note_two(readers, a, b, place),
        Term::Guarded(condition, a) => note_two(readers, condition, a, place),
    }
}

fn note_two(
    readers: &mut Vec<Vec<usize>>,
    a: usize,
    b: usize,
    place: usize,
) -> Result<(), MemoryOut>
    requires first { a < vec_len readers.old }
    requires second { b < vec_len readers.old }
    ensures { OnOk result (Notes readers.old.items readers.new.items (a ∷ b ∷ []) place) }
{
    note(readers, a, place)?;
    note(readers, b, place)?;
    Ok(())
}

fn note(readers: &mut Vec<Vec<usize>>, unknown: usize, place: usize) -> Result<(), MemoryOut>
    requires { unknown < vec_len readers.old }
    ensures { OnOk result (Notes readers.old.items readers.new.items (unknown ∷ []) place) }
{
    readers[unknown].push(place)?;
    Ok(())
}
