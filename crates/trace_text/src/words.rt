//! The words of a line, which are parted by single spaces.

ghost use Rattle.std.specs.Prelude.{◌≡◌, ◌≤◌, ◌+◌, [], ◌∷◌, length, nat_eq, position};
ghost use Rattle.std.specs.Option.{option_map_or};
ghost use Rattle.trace_text.specs.Lines.{words_of};

/// The first word, and what stands behind the space that ends it.
pub fn first_word(text: &[u8]) -> (&[u8], Option<&[u8]>)
    ensures { words_of text.now ≡ result.0.now ∷ option_map_or (λ rest. words_of rest.now) result.1 [] }
{
    match first_space(text) {
        Some(end) => (&text[..end], Some(&text[end + 1..])),
        None => (text, None),
    }
}

/// Where the first space of a text stands.
fn first_space(text: &[u8]) -> Option<usize>
    ensures { result ≡ position (λ b. nat_eq b 32) text.now }
{
    text.iter().position(|byte| *byte == b' ')
}

/// How many words a text has: one more than it has spaces.
pub fn word_count(text: &[u8]) -> u64
    ensures { result ≡ length (words_of text.now) }
{
    text.iter().filter(|byte| **byte == b' ').count() as u64 + 1
}
