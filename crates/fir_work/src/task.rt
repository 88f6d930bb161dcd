//! What gives one number of a tick.

ghost use Rattle.std.specs.Prelude.{◌≡◌, ◌<◌};
ghost use Rattle.fir_work.specs.working.Numbers.{number_at};
ghost use Rattle.fir_work.specs.working.Tasks.{CanRun, worked};
ghost use Rattle.fir_work.specs.working.Works.{extension, lowered, quotient_of, raised, remainder_of};

use crate::general::{fitted, node_number};
use crate::signed::signed_result;
use crate::work::Work;
use fir_net::FlatNet;

/// The places of up to three operands, and what is done with their numbers.
#[derive(Clone, Copy)]
pub struct Task {
    pub(crate) first: usize,
    pub(crate) second: usize,
    pub(crate) third: usize,
    pub(crate) work: Work,
}

impl Task {
    /// The number that the task gives, of all numbers of a tick: those of the net's leaves in their order,
    /// and then those of its nodes. The net is the one of which the task was found.
    #[inline]
    pub fn run(&self, net: &FlatNet, numbers: &[u128]) -> u128
        requires { CanRun net.now self.now numbers.now }
        ensures { result ≡ worked net.now self.now numbers.now }
    {
        let first = number_at(numbers, self.first);
        let second = number_at(numbers, self.second);
        match self.work {
            Work::Literal(number) => number,
            Work::Operand => first,
            Work::Field { low, mask } => (first >> low) & mask,
            Work::Shift(by) => first << by,
            Work::Join(by) => (first << by) | second,
            Work::Turn(mask) => mask.wrapping_sub(first),
            Work::And => first & second,
            Work::Or => first | second,
            Work::Xor => first ^ second,
            Work::Sum => first.wrapping_add(second),
            Work::Difference(mask) => first.wrapping_sub(second) & mask,
            Work::Product => first.wrapping_mul(second),
            Work::Quotient => quotient(first, second),
            Work::Remainder => remainder(first, second),
            Work::Up => raised(first, second),
            Work::Down => lowered(first, second),
            Work::Below => u128::from(first < second),
            Work::AtMost => u128::from(first <= second),
            Work::Above => u128::from(first > second),
            Work::AtLeast => u128::from(first >= second),
            Work::Same => u128::from(first == second),
            Work::Differ => u128::from(first != second),
            Work::Any => u128::from(first != 0),
            Work::All(mask) => u128::from(first == mask),
            Work::Parity => u128::from(first.count_ones() % 2),
            Work::Extend { top, fill } => extended(first, top, fill),
            Work::Signed { .. } => signed_result(&self.work, first, second),
            Work::Choose if first == 1 => second,
            Work::Choose => number_at(numbers, self.third),
            Work::Show { signed, width, to } if first == 1 => fitted(signed, width, second, to),
            Work::Show { .. } => number_at(numbers, self.third),
            Work::Node(number) => node_number(net, numbers, number),
        }
    }
}

/// The number at that place, or 0 where there is none.
#[inline]
pub fn number_at(numbers: &[u128], place: usize) -> u128
    ensures { result ≡ number_at numbers.now place }
{
    numbers.get(place).copied().unwrap_or(0)
}

/// The quotient, or 0 where the divisor is 0.
#[inline(never)]
fn quotient(number: u128, by: u128) -> u128
    ensures { result ≡ quotient_of number by }
{
    if by == 0 { 0 } else { number / by }
}

/// What the division leaves, or 0 where the divisor is 0.
#[inline(never)]
fn remainder(number: u128, by: u128) -> u128
    ensures { result ≡ remainder_of number by }
{
    if by == 0 { 0 } else { number % by }
}

/// The number shifted up by so many bits.
#[inline]
fn raised(number: u128, by: u128) -> u128
    ensures { result ≡ raised number by }
{
    if by < 128 { number << by } else { 0 }
}

/// The number shifted down by so many bits.
#[inline]
fn lowered(number: u128, by: u128) -> u128
    ensures { result ≡ lowered number by }
{
    if by < 128 { number >> by } else { 0 }
}

/// The number, with `fill` added where it has a bit from bit `top` on.
#[inline]
fn extended(number: u128, top: u32, fill: u128) -> u128
    requires { top < 128 }
    ensures { result ≡ extension number top fill }
{
    if number >> top == 0 {
        number
    } else {
        number.wrapping_add(fill)
    }
}
