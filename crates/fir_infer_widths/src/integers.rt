//! The integers of an operation.

ghost use Rattle.std.specs.Prelude.{◌≡◌, slice_index};

/// The integer at a place, or 0 where the operation has fewer.
pub fn integer(integers: &[u128], index: usize) -> u128
    ensures { result ≡ slice_index integers.now index }
{
    match integers.get(index) {
        Some(integer) => *integer,
        None => 0,
    }
}
