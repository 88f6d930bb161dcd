//! Tables of words.

ghost use Rattle.std.specs.Prelude.{◌≡◌, map};
ghost use Rattle.fir_base.specs.Words.{is_among};

/// Whether the word is one of the table. It compares with each.
pub fn is_among(words: &[&[u8]], word: &[u8]) -> bool
    ensures { result ≡ is_among (map (λ entry. entry.now) words.now) word.now }
{
    for entry in words {
        if *entry == word {
            return true;
        }
    }
    false
}
