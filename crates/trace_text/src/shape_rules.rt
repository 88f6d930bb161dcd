//! The rules of a shape, but for that of distinct names.

ghost use Rattle.std.specs.Prelude.{◌≡◌, ◌≤◌, ◌↔◌, IsTrue, sum_by};
ghost use Rattle.std.specs.List.{AllByRecursion};
ghost use Rattle.trace_text.specs.working.Shapes.{IsWidth, IsStateWord, AreRegistersFirst, array_size, word_limit};
ghost use Rattle.trace_text.specs.Shapes.{size_of};

use crate::shape::StateWord;
use crate::spelling::is_word;

/// The most words that all arrays have together.
const WORD_LIMIT: u32 = 4_194_304;

/// How many words there are under the name: those of an array, or the one of a register.
pub fn size(word: &StateWord) -> u32
    ensures { result ≡ size_of word.now }
{
    word.depth.unwrap_or(1)
}

fn is_width(width: u32) -> bool
    ensures { IsTrue result ↔ IsWidth width }
{
    1 <= width && width <= 128
}

/// Whether each is a width in bits, from 1 to 128.
pub fn are_widths(widths: &[u32]) -> bool
    ensures { IsTrue result ↔ AllByRecursion IsWidth widths.now }
{
    widths.iter().all(|width| is_width(*width))
}

fn is_state_word(word: &StateWord) -> bool
    ensures { IsTrue result ↔ IsStateWord word.now }
{
    is_word(word.name.as_bytes()) && is_width(word.width) && 1 <= size(word)
}

fn are_state_words(state: &[StateWord]) -> bool
    ensures { IsTrue result ↔ AllByRecursion IsStateWord state.now }
{
    state.iter().all(|word| is_state_word(word))
}

fn are_registers_first(state: &[StateWord]) -> bool
    ensures { IsTrue result ↔ AreRegistersFirst state.now }
{
    let mut behind_array = false;
    for word in state {
        let is_array = word.depth.is_some();
        if behind_array && !is_array {
            return false;
        }
        behind_array = is_array;
    }
    true
}

/// Whether the arrays have few enough words together.
fn are_few(state: &[StateWord]) -> bool
    ensures { IsTrue result ↔ sum_by array_size state.now ≤ word_limit }
{
    let mut left = WORD_LIMIT;
    for word in state {
        let count = word.depth.unwrap_or(0);
        if left < count {
            return false;
        }
        left -= count;
    }
    true
}

/// Whether these words may be the state of a shape, if no name stands twice.
pub fn is_state(state: &[StateWord]) -> bool
    ensures { IsTrue result ↔ AllByRecursion IsStateWord state.now × AreRegistersFirst state.now × (sum_by array_size state.now ≤ word_limit) }
{
    are_state_words(state) && are_registers_first(state) && are_few(state)
}
