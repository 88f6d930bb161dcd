//! What a name is declared as (IEEE 1364-2005, 4.2, 4.9, 12.3).

ghost use Rattle.std.specs.Prelude.{◌≡◌};
ghost use Rattle.ver_check.specs.Scopes.{is_clock_input, is_driven, kind_bits, register_bits, word_bits};

/// What a name is declared as, with its width in bits, and that of the words of an array.
#[derive(Clone, Copy)]
pub enum Kind {
    ClockInput,
    ClockOutput,
    Input(u32),
    Output(u32),
    Wire(u32),
    Register(u32),
    Array(u32),
}

impl Kind {
    /// The width of what has bits at each time.
    pub fn bits(self) -> Option<u32>
        ensures { result ≡ kind_bits self }
    {
        match self {
            Kind::Input(width) | Kind::Output(width) | Kind::Wire(width) | Kind::Register(width) =>
                Some(width),
            Kind::ClockInput | Kind::ClockOutput | Kind::Array(_) => None,
        }
    }

    /// The width of a register.
    pub fn register_bits(self) -> Option<u32>
        ensures { result ≡ register_bits self }
    {
        match self {
            Kind::Register(width) => Some(width),
            _ => None,
        }
    }

    /// The width of the words of an array.
    pub fn word_bits(self) -> Option<u32>
        ensures { result ≡ word_bits self }
    {
        match self {
            Kind::Array(width) => Some(width),
            _ => None,
        }
    }

    /// Whether it is a clock input.
    pub fn is_clock_input(self) -> bool
        ensures { result ≡ is_clock_input self }
    {
        match self {
            Kind::ClockInput => true,
            _ => false,
        }
    }

    /// Whether an assign has to drive it.
    pub fn is_driven(self) -> bool
        ensures { result ≡ is_driven self }
    {
        match self {
            Kind::ClockOutput | Kind::Output(_) | Kind::Wire(_) => true,
            _ => false,
        }
    }
}
