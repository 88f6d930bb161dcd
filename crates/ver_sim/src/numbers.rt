//! Numbers at places of a list, and their bits.

ghost use Rattle.std.specs.Prelude.{◌≡◌, ◌+◌, ◌*◌, ◌/◌, ◌%◌, ◌^◌, slice_get, slice_index, take, drop};

use fir_bits::mask;

/// The number at that place, and 0 past the end.
#[inline]
pub fn at(numbers: &[u128], place: usize) -> u128
    ensures { result ≡ slice_index numbers.now place }
{
    if place < numbers.len() {
        numbers[place]
    } else {
        0
    }
}

/// The number of that index among the `depth` numbers from `base` on, where there is one.
pub fn word_at(numbers: &[u128], base: usize, depth: usize, index: u128) -> Option<u128>
    ensures { result ≡ slice_get (take depth (drop base numbers.now)) index }
{
    if index < depth as u128 {
        let place = index as usize;
        if base <= numbers.len() && place < numbers.len() - base {
            return Some(numbers[base + place]);
        }
    }
    None
}

/// The low bits of a number.
#[inline]
pub fn low_bits(number: u128, width: u32) -> u128
    ensures { result ≡ number % 2 ^ width }
{
    if width < 128 {
        number & mask(width)
    } else {
        number
    }
}

/// A number shifted down.
#[inline]
pub fn shifted_down(number: u128, by: u128) -> u128
    ensures { result ≡ number / 2 ^ by }
{
    if by < 128 { number >> by } else { 0 }
}

/// The low bits of a number shifted up.
#[inline]
pub fn shifted_up(number: u128, by: u128) -> u128
    ensures { result ≡ number * 2 ^ by % 2 ^ 128 }
{
    if by < 128 { number << by } else { 0 }
}
