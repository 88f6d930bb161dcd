//! Kinds of bytes.

ghost use Rattle.std.specs.Prelude.{◌≡◌};
ghost use Rattle.ver_ast.specs.working.TokenSteps.{is_blank, is_sign, is_double};
ghost use Rattle.ver_lex.specs.working.Bytes.{starts_with_byte, is_base, radix_of};

/// Whether the byte is white space (IEEE 1364-2005, 3.2).
pub fn is_blank(byte: u8) -> bool
    ensures { result ≡ is_blank byte }
{
    byte == b' ' || byte == b'\t' || byte == b'\r' || byte == b'\n'
}

/// Whether the byte is a sign by itself.
pub fn is_sign(byte: u8) -> bool
    ensures { result ≡ is_sign byte }
{
    matches!(
        byte,
        b'(' | b')'
            | b';'
            | b','
            | b':'
            | b'['
            | b']'
            | b'{'
            | b'}'
            | b'='
            | b'~'
            | b'&'
            | b'|'
            | b'^'
            | b'@'
            | b'+'
            | b'-'
            | b'*'
            | b'/'
            | b'%'
            | b'?'
            | b'<'
            | b'>'
    )
}

/// Whether the two bytes are one sign.
pub fn is_double(first: u8, second: u8) -> bool
    ensures { result ≡ is_double first second }
{
    match first {
        b'(' => second == b'*',
        b'*' => second == b')',
        b'<' => second == b'=' || second == b'<',
        b'>' => second == b'=' || second == b'>',
        b'=' | b'!' => second == b'=',
        _ => false,
    }
}

/// Whether the byte is the letter of a base.
pub fn is_base(byte: u8) -> bool
    ensures { result ≡ is_base byte }
{
    byte == b'b' || byte == b'd' || byte == b'h'
}

/// The radix of a base, by its letter.
pub fn radix_of(letter: u8) -> u8
    ensures { result ≡ radix_of letter }
{
    match letter {
        b'b' => 2,
        b'd' => 10,
        _ => 16,
    }
}

#[tactic(auto, using(crate::proofs::Bytes::first_is))]
pub fn starts_with_byte(byte: u8, bytes: &[u8]) -> bool
    ensures { result ≡ starts_with_byte byte bytes.now }
{
    match bytes {
        [first, ..] => *first == byte,
        [] => false,
    }
}
