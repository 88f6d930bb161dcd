//! The widths that stand by their numbers.

ghost use Rattle.std.specs.Prelude.{◌≡◌};
ghost use Rattle.fir_meaning.specs.working.AssignedWidths.{assigned};

/// The width of a number, in bits; without one it is 0.
pub fn width_at(widths: &[u32], number: usize) -> u32
    ensures { result ≡ assigned widths.now number }
{
    match widths.get(number) {
        Some(width) => *width,
        None => 0,
    }
}
