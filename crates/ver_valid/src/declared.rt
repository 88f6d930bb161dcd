//! What a name is declared as.

ghost use Rattle.std.specs.Prelude.{◌≡◌};
ghost use Rattle.ver_valid.specs.working.Kinds as kind;

/// What a name is declared as, with its width in bits.
#[derive(Clone, Copy)]
pub enum Declared {
    ClockInput,
    ClockOutput,
    Input(u32),
    Output(u32),
    Wire(u32),
    Register(u32),
    /// The width of the words and the number of the last one.
    Array(u32, u32),
}

impl Declared {
    /// The width of what has bits at each time.
    pub fn net_width(self) -> Option<u32>
        ensures { result ≡ kind.net_width self }
    {
        match self {
            Declared::Input(width)
            | Declared::Output(width)
            | Declared::Wire(width)
            | Declared::Register(width) => Some(width),
            Declared::ClockInput | Declared::ClockOutput | Declared::Array(_, _) => None,
        }
    }

    /// The width of a register.
    pub fn register_width(self) -> Option<u32>
        ensures { result ≡ kind.register_width self }
    {
        match self {
            Declared::Register(width) => Some(width),
            _ => None,
        }
    }

    /// The width of what an assign drives.
    pub fn driven_width(self) -> Option<u32>
        ensures { result ≡ kind.driven_width self }
    {
        match self {
            Declared::Output(width) | Declared::Wire(width) => Some(width),
            _ => None,
        }
    }

    /// The width of the words of an array.
    pub fn word_width(self) -> Option<u32>
        ensures { result ≡ kind.word_width self }
    {
        match self {
            Declared::Array(width, _) => Some(width),
            _ => None,
        }
    }
}
