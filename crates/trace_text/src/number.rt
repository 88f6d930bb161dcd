//! Words read as numbers, each digit once. They may have any number of digits.

ghost use Rattle.std.specs.Prelude.{◌≡◌, ◌^◌, ◌≤◌, ◌<◌, ◌+◌, ◌*◌, ℕ, MatchOption, true, false, nat_lt, ◌≢◌, slice_index};
ghost use Rattle.std.specs.List.{list_all};
ghost use Rattle.fir_base.specs.Bytes.{is_digit};
ghost use Rattle.trace_text.specs.Spelling.{digit_number, is_decimal, decimal_of};
ghost use Rattle.trace_text.specs.working.Numbers.{is_digit_in, IsHeld, IsNumber, Reads, ReadsValue, ReadsDecimal};

use fir_base::digit_value;
use fir_bits::mask;

/// A word, read as a number.
#[derive(Clone, Copy)]
pub enum Reading {
    /// A byte of it is no digit, or it has none.
    Misspelled,
    /// Its number is not below two to the power of 128.
    Wide,
    Number(u128),
}

impl Reading {
    /// The number, where it is below the bound.
    pub fn below(self, bound: usize) -> Option<usize>
        ensures { (n : ℕ) → IsNumber self n → MatchOption result (bound ≤ n) (λ m. (m ≡ n) × (n < bound)) }
    {
        match self {
            Reading::Number(number) if number < bound as u128 => Some(number as usize),
            _ => None,
        }
    }

    /// The number, where it fits a width of up to 128 bits.
    #[tactic(auto, using(crate::proofs::Numbers::beyond))]
    pub fn fitting(self, width: u32) -> Option<u128>
        requires { width ≤ 128 }
        ensures { (n : ℕ) → IsNumber self n → MatchOption result (2 ^ width ≤ n) (λ m. (m ≡ n) × (n < 2 ^ width)) }
    {
        match self {
            Reading::Number(number) if number <= mask(width) => Some(number),
            _ => None,
        }
    }
}

/// The value of a byte as a digit of a base of up to 16, where it is one.
fn digit_in(base: u8, byte: u8) -> Option<u8>
    ensures { MatchOption result (is_digit_in base byte ≡ false) (λ d. (is_digit_in base byte ≡ true) × (d ≡ digit_number byte)) }
{
    match digit_value(byte) {
        Some(digit) if digit < base => Some(digit),
        _ => None,
    }
}

/// The number with one digit more. None is a number that is not below two to the power of 128.
fn with_digit(base: u8, number: Option<u128>, digit: u8) -> Option<u128>
    requires { 1 ≤ base }
    ensures { (n : ℕ) → IsHeld number n → IsHeld result (base * n + digit) }
{
    u128::from(base)
        .checked_mul(number?)?
        .checked_add(u128::from(digit))
}

/// Reads a word as digits of a base of up to 16.
fn read(base: u8, word: &[u8]) -> Reading
    requires { 1 ≤ base }
    ensures { Reads base word.now result }
{
    if word.is_empty() {
        return Reading::Misspelled;
    }
    let mut number = Some(0);
    for byte in word {
        let Some(digit) = digit_in(base, *byte) else {
            return Reading::Misspelled;
        };
        number = with_digit(base, number, digit);
    }
    match number {
        Some(number) => Reading::Number(number),
        None => Reading::Wide,
    }
}

/// Reads a word as a value: hexadecimal digits in either case.
pub fn read_value(word: &[u8]) -> Reading
    ensures { ReadsValue word.now result }
{
    read(16, word)
}

/// Reads a word as decimal digits.
pub fn read_decimal(word: &[u8]) -> Reading
    ensures { ReadsDecimal word.now result }
{
    read(10, word)
}

/// The digits without the zeros at their front.
fn without_zeros(mut digits: &[u8]) -> &[u8]
    requires { list_all is_digit digits.now ≡ true }
    ensures number { decimal_of result.now ≡ decimal_of digits.entry.now }
    ensures digits { list_all is_digit result.now ≡ true }
    ensures first { slice_index result.now 0 ≢ 48 }
{
    while let [b'0', rest @ ..] = digits {
        digits = rest;
    }
    digits
}

/// Whether the number of the first decimal digits is the smaller one. Both may have any number of digits.
pub fn decimal_less(a: &[u8], b: &[u8]) -> bool
    requires a { is_decimal a.now ≡ true }
    requires b { is_decimal b.now ≡ true }
    ensures { result ≡ nat_lt (decimal_of a.now) (decimal_of b.now) }
{
    let a = without_zeros(a);
    let b = without_zeros(b);
    if a.len() == b.len() {
        a < b
    } else {
        a.len() < b.len()
    }
}
