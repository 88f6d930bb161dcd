//! The steps of a path, as a line prints them (FIRRTL spec, "References").

ghost use Rattle.std.specs.Prelude.{◌≡◌, ◌++◌, OnOk};
ghost use Rattle.fir_meaning.specs.LeafPaths.{element, named, step_text};

use fir_base::{MemoryOut, Name, put_decimal};

/// Appends the step to a field.
pub fn put_field(path: &mut Vec<u8>, name: &Name) -> Result<(), MemoryOut>
    ensures { OnOk result (path.new.items ≡ path.old.items ++ step_text (named name.now)) }
{
    path.extend_from_slice(b".")?;
    path.extend_from_slice(name.as_bytes())?;
    Ok(())
}

/// Appends the step to an element of a vector.
pub fn put_element(path: &mut Vec<u8>, index: u128) -> Result<(), MemoryOut>
    ensures { OnOk result (path.new.items ≡ path.old.items ++ step_text (element index)) }
{
    path.extend_from_slice(b"[")?;
    put_decimal(path, index)?;
    path.extend_from_slice(b"]")?;
    Ok(())
}
