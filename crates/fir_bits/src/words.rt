//! The words of the operations.

use crate::operators::{PrimOp, operators};

macro_rules! words {
    ($op:expr; $($name:ident: $word:literal, $form:ident, $signed:expr, $width:expr, $value:expr;)*) => {
        match $op { $(PrimOp::$name => $word,)* }
    };
}

macro_rules! words_read {
    ($op:expr; $($name:ident: $word:literal, $form:ident, $signed:expr, $width:expr, $value:expr;)*) => {
        match $op { $($word => Some(PrimOp::$name),)* _ => None }
    };
}

impl PrimOp {
    ghost use Rattle.std.specs.Prelude.{◌≡◌};
    ghost use Rattle.fir_bits.specs.OperatorWords.{operator_word};
    ghost use Rattle.fir_bits.specs.working.OperatorWords.{operator_of};

    /// The word by which the operation is spelled (FIRRTL spec, "Primitive Operations").
    pub fn word(self) -> &'static [u8]
        ensures { result.now ≡ operator_word self }
    {
        operators!(words, self, signed, w, v, n, m, r, a, b)
    }

    /// The operation that the word spells.
    pub fn of_word(word: &[u8]) -> Option<PrimOp>
        ensures { result ≡ operator_of word.now }
    {
        operators!(words_read, word, signed, w, v, n, m, r, a, b)
    }
}
