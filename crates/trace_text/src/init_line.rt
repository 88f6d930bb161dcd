//! A line that gives a word of the state its initial value.

ghost use Rattle.std.specs.Prelude.{◌≡◌, ◌≤◌, ℕ, List, [], ◌∷◌, true};
ghost use Rattle.trace_text.specs.Spelling.{hexadecimal_of};
ghost use Rattle.trace_text.specs.LineFaults.{absent_name};
ghost use Rattle.trace_text.specs.working.Readings.{is_init_line, ReadsInitLine};
ghost use Rattle.trace_text.specs.working.Numbers.{IsNumber};
ghost use Rattle.trace_text.specs.working.InitWords.{GivesValue, ReadsInitWords};

use crate::fault::Cause;
use crate::init_words::{InitWords, init_words};
use crate::lines::LINE_LIMIT;
use crate::number::{Reading, read_decimal, read_value};
use crate::shape::{FoundWord, Shape};
use crate::spelling::is_word;
use fir_base::{Name, Refused};
use fir_bits::mask;
use std::alloc::Global;

/// A word of the state, by its place from 0, and its value.
#[derive(Clone, Copy)]
pub struct InitWord {
    pub place: usize,
    pub value: u128,
}

/// The word and the value that a line gives which begins with `init`, or what is wrong with it.
pub fn read_init_line(alloc: Global, shape: &Shape, line: &[u8]) -> Result<InitWord, Refused<Cause>>
    requires { is_init_line line.now ≡ true }
    ensures { ReadsInitLine shape.now line.now result }
{
    if line.len() > LINE_LIMIT {
        return Err(Refused::Fault(Cause::Long));
    }
    match init_words(line) {
        Ok(InitWords::Register(name, digits)) => read_register(alloc, shape, name, digits),
        Ok(InitWords::Array(name, address, digits)) => read_array(
            alloc, shape, name, address, digits,
        ),
        Err(cause) => Err(Refused::Fault(cause)),
    }
}

/// The word of a register and its value.
fn read_register(
    alloc: Global,
    shape: &Shape,
    name: &[u8],
    digits: &[u8],
) -> Result<InitWord, Refused<Cause>>
    ensures { ReadsInitWords shape.now (name.now ∷ digits.now ∷ []) result }
{
    if !is_word(name) {
        return Err(Refused::Fault(Cause::Misspelled(2)));
    }
    let number = read_value(digits);
    if let Reading::Misspelled = number {
        return Err(Refused::Fault(Cause::Misspelled(3)));
    }
    let known = Name::new(alloc, name)?;
    let Some(
        FoundWord {
            place,
            width,
            depth: None,
        },
    ) = shape.find(&known)
    else {
        return Err(Refused::Fault(absent_name(name)));
    };
    let value = fitting(3, width, number)?;
    Ok(InitWord { place, value })
}

/// The word of an array at an address and its value.
fn read_array(
    alloc: Global,
    shape: &Shape,
    name: &[u8],
    address: &[u8],
    digits: &[u8],
) -> Result<InitWord, Refused<Cause>>
    ensures { ReadsInitWords shape.now (name.now ∷ address.now ∷ digits.now ∷ []) result }
{
    if !is_word(name) {
        return Err(Refused::Fault(Cause::Misspelled(2)));
    }
    let offset = read_decimal(address);
    if let Reading::Misspelled = offset {
        return Err(Refused::Fault(Cause::Misspelled(3)));
    }
    let number = read_value(digits);
    if let Reading::Misspelled = number {
        return Err(Refused::Fault(Cause::Misspelled(4)));
    }
    let known = Name::new(alloc, name)?;
    let Some(
        FoundWord {
            place,
            width,
            depth: Some(depth),
        },
    ) = shape.find(&known)
    else {
        return Err(Refused::Fault(absent_name(name)));
    };
    let Some(offset) = offset.below(depth as usize) else {
        return Err(Refused::Fault(Cause::Absent(6 + name.len() as u64, address.len() as u64)));
    };
    let value = fitting(4, width, number)?;
    let place = place + offset;
    Ok(InitWord { place, value })
}

/// That no such name is there: it stands behind `init` and a space.
fn absent_name(name: &[u8]) -> Cause
    ensures { absent_name name.now ≡ result ∷ [] }
{
    Cause::Absent(5, name.len() as u64)
}

/// The value that was read of the word of that number in the line, or that it does not fit the width.
fn fitting(word: u64, width: u32, number: Reading) -> Result<u128, Refused<Cause>>
    requires { width ≤ 128 }
    ensures { (digits : List ℕ) → IsNumber number (hexadecimal_of digits) → GivesValue word width digits result }
{
    match number.fitting(width) {
        Some(value) => Ok(value),
        None => Err(Refused::Fault(Cause::Wide(word, width))),
    }
}
