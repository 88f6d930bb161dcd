//! A few bytes without the heap, which contracts see as a list.

ghost use Rattle.std.specs.Prelude.{◌≡◌, ◌≤◌, length};

use std::marker::Model;

/// The most bytes that are held in place: with their number, and a tag, they fill 32.
pub const MOST_IN_PLACE: usize = 30;

/// A few bytes, held in place.
#[derive(Drop)]
pub struct ShortBytes {
    count: u8,
    bytes: [u8; MOST_IN_PLACE],
}

impl Model for ShortBytes {
    ghost use Rattle.std.specs.Prelude.{List, ℕ, ◌≤◌, take};
    ghost use Rattle.fir_base.specs.declared.short_bytes.TheConstants.{MOST_IN_PLACE};

    ghost Value = { List ℕ };

    ghost view = { λ s. take s.count s.bytes };

    ghost invariant = { λ s. s.count ≤ MOST_IN_PLACE };
}

impl ShortBytes {
    /// These bytes, of which there are few enough. It takes no memory.
    pub fn new(bytes: &[u8]) -> ShortBytes
        requires { length bytes.now ≤ MOST_IN_PLACE }
        ensures { result ≡ bytes.now }
    {
        let mut held = [0; MOST_IN_PLACE];
        held[..bytes.len()].copy_from_slice(bytes);
        ShortBytes {
            count: bytes.len() as u8,
            bytes: held,
        }
    }

    /// The same bytes. It takes no memory.
    pub fn copy(&self) -> ShortBytes
        ensures { result ≡ self.now }
    {
        ShortBytes {
            count: self.count,
            bytes: self.bytes,
        }
    }

    /// The bytes.
    pub fn as_slice(&self) -> &[u8]
        ensures { result.now ≡ self.now }
    {
        &self.bytes[..self.count as usize]
    }
}
