//! Which way a part of a type goes.

ghost use Rattle.std.specs.Prelude.{◌≡◌};
ghost use Rattle.fir_meaning.specs.TypeLeaves.{turned};

/// The direction within a field that is flipped or not: below a flipped field it is the other one.
pub fn direction(outer: bool, flip: bool) -> bool
    ensures { result ≡ turned outer flip }
{
    outer != flip
}
