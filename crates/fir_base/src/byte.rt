//! Bytes of words, in both languages and in traces.

ghost use Rattle.std.specs.Prelude.{◌≡◌};
ghost use Rattle.fir_base.specs.Bytes.{is_letter, is_digit, is_word_start, is_word_byte};

fn is_letter(byte: u8) -> bool
    ensures { result ≡ is_letter byte }
{
    (b'a' <= byte && byte <= b'z') || (b'A' <= byte && byte <= b'Z')
}

/// Whether the byte is a decimal digit.
pub fn is_digit(byte: u8) -> bool
    ensures { result ≡ is_digit byte }
{
    b'0' <= byte && byte <= b'9'
}

/// Whether a word may begin with the byte: a letter or an underscore.
pub fn is_word_start(byte: u8) -> bool
    ensures { result ≡ is_word_start byte }
{
    is_letter(byte) || byte == b'_'
}

/// Whether a word may go on with the byte: as it begins, or with a digit or a dollar sign.
pub fn is_word_byte(byte: u8) -> bool
    ensures { result ≡ is_word_byte byte }
{
    is_word_start(byte) || (is_digit(byte) || byte == b'$')
}
