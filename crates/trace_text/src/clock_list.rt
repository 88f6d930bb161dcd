//! The list of the clocks that rise, read in one walk.

ghost use Rattle.std.specs.Prelude.{◌≡◌, ◌+◌, ◌≤◌, ℕ, List, [], ◌∷◌, true, false, length, IfSome, MatchOption, nat_lt};
ghost use Rattle.trace_text.specs.Spelling.{decimal_of, listed, is_no_clock, are_clocks};
ghost use Rattle.trace_text.specs.working.ClockLists.{IsClock, ClocksAreRead, ReadsClockList};

use crate::fault::Cause;
use crate::number::{Reading, decimal_less, read_decimal};

/// What is read of a clock list: how many clocks are named in the room, and the first number that is no clock.
#[derive(Clone, Copy)]
pub struct ReadClocks {
    pub named: usize,
    pub absent: Option<Cause>,
}

/// A number of a clock list, with its digits.
#[derive(Clone, Copy)]
struct Clock<'a> {
    digits: &'a [u8],
    number: Reading,
}

fn is_no_clock(word: &[u8]) -> bool
    ensures { result ≡ is_no_clock word.now }
{
    word == b"-".as_slice()
}

/// Whether the first number is the smaller one. Digits are looked at again only where both numbers are wide.
fn is_less(a: Clock, b: Clock) -> bool
    requires a { IsClock a }
    requires b { IsClock b }
    ensures { result ≡ nat_lt (decimal_of a.entry.digits.now) (decimal_of b.entry.digits.now) }
{
    match (a.number, b.number) {
        (Reading::Number(a), Reading::Number(b)) => a < b,
        (Reading::Number(_), _) => true,
        (_, Reading::Number(_)) => false,
        _ => decimal_less(a.digits, b.digits),
    }
}

/// Whether a number is greater than the one before it, where there is one.
fn is_greater(before: Option<Clock>, clock: Clock) -> bool
    requires before { IfSome before (λ b. IsClock b) }
    requires clock { IsClock clock }
    ensures { MatchOption before.entry (result ≡ true) (λ b. result ≡ nat_lt (decimal_of b.digits.now) (decimal_of clock.entry.digits.now)) }
{
    match before {
        None => true,
        Some(before) => is_less(before, clock),
    }
}

impl ReadClocks {
    /// Takes the number that stands at the place in a list: names the clock, or tells that there is none.
    fn take(&mut self, clock: Clock, place: usize, room: &mut [usize])
        requires clock { IsClock clock }
        requires behind { self.old.named ≤ decimal_of clock.digits.now }
        ensures named { self.new.named ≤ decimal_of clock.entry.digits.now + 1 }
        ensures room { length room.new ≡ length room.old }
        ensures read { (pieces left : List (List ℕ)) → ClocksAreRead pieces (clock.entry.digits.now ∷ left) place self.old room.old → ClocksAreRead pieces left (place + (length clock.entry.digits.now + 1)) self.new room.new }
    {
        match clock.number.below(room.len()) {
            Some(number) => {
                room[self.named] = number;
                self.named += 1;
            }
            None => {
                let absent = Cause::Absent(place as u64, clock.digits.len() as u64);
                self.absent = self.absent.or(Some(absent));
            }
        }
    }
}

/// Reads rising decimal numbers parted by commas. None where a word is no such list.
fn read_clocks(word: &[u8], room: &mut [usize]) -> Option<ReadClocks>
    ensures read { MatchOption result (are_clocks (listed word.now) ≡ false) (λ read. (are_clocks (listed word.now) ≡ true) × ClocksAreRead (listed word.now) [] 0 read room.new) }
    ensures room { length room.new ≡ length room.old }
{
    let mut read = ReadClocks {
        named: 0,
        absent: None,
    };
    let mut before = None;
    let mut place = 0;
    for digits in word.split(|byte| *byte == b',') {
        let number = read_decimal(digits);
        if let Reading::Misspelled = number {
            return None;
        }
        let clock = Clock { digits, number };
        if !is_greater(before, clock) {
            return None;
        }
        read.take(clock, place, room);
        before = Some(clock);
        place += digits.len() + 1;
    }
    Some(read)
}

/// Reads a clock list into the room, which has a place for each clock. None where a word is neither `-` nor
/// rising decimal numbers parted by commas.
pub fn read_clock_list(word: &[u8], room: &mut [usize]) -> Option<ReadClocks>
    ensures read { ReadsClockList word.now result room.new }
    ensures room { length room.new ≡ length room.old }
{
    if is_no_clock(word) {
        Some(ReadClocks {
            named: 0,
            absent: None,
        })
    } else {
        read_clocks(word, room)
    }
}
