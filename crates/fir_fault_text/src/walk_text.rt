//! Walks, places and choices as text.

ghost use Rattle.std.specs.Prelude.{◌≡◌, ◌++◌, OnOk, codes, decimal, flat_map, map};
ghost use Rattle.fir_ast.specs.Texts.{outcome_text, place_text, separated, type_text};
ghost use Rattle.fir_ast.specs.working.CodeFaults.{reset_step_text};
ghost use Rattle.fir_ast.specs.working.TypeViews.{type_of};

use crate::type_text::put_type;
use fir_ast::{Outcome, Place, ResetStep, Ty};
use fir_base::{MemoryOut, Name, put_decimal};

/// What is printed as one text.
pub trait Text {
    ghost use Rattle.std.specs.Prelude.{List, ℕ};

    ghost text: { Self → List ℕ };

    /// Appends the text.
    fn put(&self, out: &mut Vec<u8>) -> Result<(), MemoryOut>
        ensures { OnOk result (out.new.items ≡ out.old.items ++ text self.now) };
}

impl Text for Name {
    ghost text = { λ n. n };

    fn put(&self, out: &mut Vec<u8>) -> Result<(), MemoryOut> {
        out.extend_from_slice(self.as_bytes())?;
        Ok(())
    }
}

impl Text for Ty {
    ghost text = { λ t. type_text (type_of t) };

    fn put(&self, out: &mut Vec<u8>) -> Result<(), MemoryOut> {
        put_type(out, self)
    }
}

impl Text for ResetStep {
    ghost text = { reset_step_text };

    fn put(&self, out: &mut Vec<u8>) -> Result<(), MemoryOut> {
        match self {
            ResetStep::Leaf(name) => name.put(out),
            ResetStep::At(place) => put_place(out, *place),
        }
    }
}

/// Appends the texts, with the separator between any two.
pub fn put_separated<T: Text>(
    out: &mut Vec<u8>,
    separator: &[u8],
    steps: &[T],
) -> Result<(), MemoryOut>
    ensures { OnOk result (out.new.items ≡ out.old.items ++ separated separator.now (map T.text steps.now)) }
{
    match steps {
        [] => Ok(()),
        [first, rest @ ..] => {
            first.put(out)?;
            put_next(out, separator, rest)
        }
    }
}

fn put_next<T: Text>(out: &mut Vec<u8>, separator: &[u8], steps: &[T]) -> Result<(), MemoryOut>
    ensures { OnOk result (out.new.items ≡ out.old.items ++ flat_map (λ next. separator.now ++ next) (map T.text steps.now)) }
{
    for step in steps {
        out.extend_from_slice(separator)?;
        step.put(out)?;
    }
    Ok(())
}

/// Appends the line and the column.
pub fn put_place(out: &mut Vec<u8>, place: Place) -> Result<(), MemoryOut>
    ensures { OnOk result (out.new.items ≡ out.old.items ++ place_text place) }
{
    put_decimal(out, u128::from(place.line))?;
    out.extend_from_slice(b":")?;
    put_decimal(out, u128::from(place.col))
}

/// Appends the outcomes of a choice, with a space before each.
pub fn put_choice(out: &mut Vec<u8>, choice: &[Outcome]) -> Result<(), MemoryOut>
    ensures { OnOk result (out.new.items ≡ out.old.items ++ flat_map outcome_text choice.now) }
{
    for outcome in choice {
        put_outcome(out, *outcome)?;
    }
    Ok(())
}

fn put_outcome(out: &mut Vec<u8>, outcome: Outcome) -> Result<(), MemoryOut>
    ensures { OnOk result (out.new.items ≡ out.old.items ++ outcome_text outcome) }
{
    let (word, place, ending) = parts_of_outcome(outcome);
    out.extend_from_slice(word)?;
    put_place(out, place)?;
    out.extend_from_slice(ending)?;
    Ok(())
}

fn parts_of_outcome(outcome: Outcome) -> (&'static [u8], Place, &'static [u8])
    ensures { outcome_text outcome ≡ result.0.now ++ place_text result.1 ++ result.2.now }
{
    match outcome {
        Outcome::When(place, true) => (b" when@", place, b"=1"),
        Outcome::When(place, false) => (b" when@", place, b"=0"),
        Outcome::Index(place, true) => (b" index@", place, b"=hit"),
        Outcome::Index(place, false) => (b" index@", place, b"=miss"),
    }
}

/// Appends the numbers in decimal, with a space before each.
pub fn put_numbers(out: &mut Vec<u8>, numbers: &[u128]) -> Result<(), MemoryOut>
    ensures { OnOk result (out.new.items ≡ out.old.items ++ flat_map (λ n. codes " " ++ decimal n) numbers.now) }
{
    for number in numbers {
        out.extend_from_slice(b" ")?;
        put_decimal(out, *number)?;
    }
    Ok(())
}
