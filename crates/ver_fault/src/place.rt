//! Places as text.

ghost use Rattle.std.specs.Prelude.{◌≡◌, ◌++◌, OnOk};
ghost use Rattle.ver_fault.specs.Texts.{vplace_text};

use fir_base::{MemoryOut, put_decimal};
use ver_ast::VPlace;

/// Appends the line and the column.
pub fn put_place(out: &mut Vec<u8>, place: VPlace) -> Result<(), MemoryOut>
    ensures { OnOk result (out.new.items ≡ out.old.items ++ vplace_text place) }
{
    put_decimal(out, u128::from(place.line))?;
    out.extend_from_slice(b":")?;
    put_decimal(out, u128::from(place.col))
}
