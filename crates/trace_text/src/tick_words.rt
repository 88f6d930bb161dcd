//! The values of the inputs in the line of a tick, read in one walk.

ghost use Rattle.std.specs.Prelude.{◌≡◌, ◌+◌, ◌^◌, ◌<◌, ℕ, List, [], ◌∷◌, length};
ghost use Rattle.std.specs.Option.{option_map_or};
ghost use Rattle.trace_text.specs.Lines.{words_of};
ghost use Rattle.trace_text.specs.working.TickWords.{AreWidths, ValuesAreRead};

use crate::fault::Cause;
use crate::number::{Reading, read_value};

/// What is read of the values of a line: how many they are, the first that is misspelled, and the first that is
/// too wide.
#[derive(Clone, Copy)]
pub struct ReadValues {
    pub count: usize,
    pub misspelled: Option<Cause>,
    pub wide: Option<Cause>,
}

impl ReadValues {
    /// Takes the next value: puts it to the input of its place, or tells what is wrong with it. A value too many
    /// is only counted.
    fn take(&mut self, word: &[u8], widths: &[u32], inputs: &mut [u128])
        requires few { self.old.count + 1 < 2 ^ 64 }
        requires narrow { AreWidths widths.now }
        requires room { length inputs.old ≡ length widths.now }
        ensures count { self.new.count ≡ self.old.count + 1 }
        ensures room { length inputs.new ≡ length inputs.old }
        ensures read { (words left : List (List ℕ)) → ValuesAreRead widths.now words (word.now ∷ left) self.old inputs.old → ValuesAreRead widths.now words left self.new inputs.new }
    {
        let place = self.count;
        self.count += 1;
        if place >= widths.len() {
            return;
        }
        let number = read_value(word);
        if let Reading::Misspelled = number {
            self.misspelled = self
                .misspelled
                .or(Some(Cause::Misspelled(place as u64 + 2)));
            return;
        }
        match number.fitting(widths[place]) {
            Some(value) => inputs[place] = value,
            None => self.wide = self
                .wide
                .or(Some(Cause::Wide(place as u64 + 2, widths[place]))),
        }
    }

    /// Takes all values of a text.
    fn take_all(&mut self, text: &[u8], widths: &[u32], inputs: &mut [u128])
        requires narrow { AreWidths widths.now }
        requires read { ValuesAreRead widths.now (words_of text.now) (words_of text.now) self.old inputs.old }
        ensures read { ValuesAreRead widths.now (words_of text.now) [] self.new inputs.new }
        ensures few { self.new.count + 1 < 2 ^ 64 }
    {
        for word in text.split(|byte| *byte == b' ') {
            self.take(word, widths, inputs);
        }
    }
}

/// Reads the values of a line, which stand behind its first word, into the inputs of these widths in bits.
pub fn read_values(rest: Option<&[u8]>, widths: &[u32], inputs: &mut [u128]) -> ReadValues
    requires narrow { AreWidths widths.now }
    requires room { length inputs.old ≡ length widths.now }
    ensures read { ValuesAreRead widths.now (option_map_or (λ text. words_of text.now) rest.entry []) [] result inputs.new }
    ensures few { result.count + 1 < 2 ^ 64 }
{
    let mut read = ReadValues {
        count: 0,
        misspelled: None,
        wide: None,
    };
    if let Some(values) = rest {
        read.take_all(values, widths, inputs);
    }
    read
}
