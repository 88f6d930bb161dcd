//! The state before the first tick.

ghost use Rattle.std.specs.Prelude.{◌≡◌};

use std::marker::Model;

/// The values of all words of the state before the first tick, in the order of the state.
#[derive(Drop)]
pub struct Init {
    words: Vec<u128>,
}

impl Model for Init {
    ghost use Rattle.std.specs.Prelude.{List, ℕ};

    ghost Value = { List ℕ };

    ghost view = { λ i. i.words.items };
}

impl Init {
    /// The state of these words.
    pub fn new(words: Vec<u128>) -> Init
        ensures { result ≡ words.items }
    {
        Init { words }
    }

    /// The words.
    pub fn words(&self) -> &[u128]
        ensures { result.now ≡ self.now }
    {
        self.words.as_slice()
    }
}
