//! Kinds of bytes.

ghost use Rattle.std.specs.Prelude.{◌≡◌};
ghost use Rattle.fir_lex.specs.working.Bytes.{starts_with_byte, ends_line, line_end_length, is_blank};

/// Whether the byte is a space or a tab.
pub fn is_blank(byte: u8) -> bool
    ensures { result ≡ is_blank byte }
{
    byte == b' ' || byte == b'\t'
}

#[tactic(auto, using(crate::proofs::Bytes::first_is))]
pub fn starts_with_byte(byte: u8, bytes: &[u8]) -> bool
    ensures { result ≡ starts_with_byte byte bytes.now }
{
    match bytes {
        [first, ..] => *first == byte,
        [] => false,
    }
}

/// Whether a line's end stands at the front.
#[tactic(auto, using(crate::proofs::Bytes::line_end_is))]
pub fn ends_line(bytes: &[u8]) -> bool
    ensures { result ≡ ends_line bytes.now }
{
    match bytes {
        [first, behind @ ..] => {
            *first == b'\n' || (*first == b'\r' && starts_with_byte(b'\n', behind))
        }
        [] => false,
    }
}

/// How many bytes the line's end at the front has.
#[tactic(auto, using(crate::proofs::Bytes::line_end_length_is))]
pub fn line_end_length(bytes: &[u8]) -> usize
    ensures { result ≡ line_end_length bytes.now }
{
    match bytes {
        [first, ..] => { if *first == b'\n' { 1 } else { 2 } }
        [] => 0,
    }
}
