//! Places in a text.

ghost use Rattle.std.specs.Prelude.{◌≡◌, ◌+◌, ◌<◌, ◌≤◌, length};
ghost use Rattle.ver_lex.specs.working.Bytes.{next_place, place_behind};

use ver_ast::VPlace;

/// How many bytes are passed, and the place behind them.
#[derive(Clone, Copy)]
pub struct Cursor {
    pub index: usize,
    pub place: VPlace,
    ghost line: { place.line ≤ index + 1 },
    ghost col: { place.col ≤ index + 1 },
}

impl Cursor {
    pub fn start() -> Cursor
        ensures index { result.index ≡ 0 }
        ensures place { result.place ≡ record { line = 1; col = 1 } }
    {
        Cursor {
            index: 0,
            place: VPlace { line: 1, col: 1 },
        }
    }

    fn next(self, byte: u8) -> Cursor
        requires { self.index < 16777216 }
        ensures index { result.index ≡ self.index + 1 }
        ensures place { result.place ≡ next_place self.place byte }
    {
        let VPlace { line, col } = self.place;
        let place = if byte == b'\n' {
            VPlace {
                line: line + 1,
                col: 1,
            }
        } else {
            VPlace { line, col: col + 1 }
        };
        Cursor {
            index: self.index + 1,
            place,
        }
    }

    /// The cursor behind the bytes that stand at it.
    pub fn behind(self, bytes: &[u8]) -> Cursor
        requires { self.index + length bytes.now ≤ 16777216 }
        ensures index { result.index ≡ self.index + length bytes.now }
        ensures place { result.place ≡ place_behind self.place bytes.now }
    {
        let mut cursor = self;
        for byte in bytes {
            cursor = cursor.next(*byte);
        }
        cursor
    }
}
