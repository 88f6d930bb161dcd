//! Walks as text.

ghost use Rattle.std.specs.Prelude.{◌≡◌, ◌++◌, OnOk, codes, flat_map};
ghost use Rattle.ver_fault.specs.Texts.{next_text, walk_text};

use fir_base::{MemoryOut, Name};

/// Appends the names of a walk, with an arrow between any two.
pub fn put_walk(out: &mut Vec<u8>, names: &[Name]) -> Result<(), MemoryOut>
    ensures { OnOk result (out.new.items ≡ out.old.items ++ walk_text names.now) }
{
    match names {
        [] => Ok(()),
        [first, rest @ ..] => {
            out.extend_from_slice(first.as_bytes())?;
            put_next(out, rest)
        }
    }
}

fn put_next(out: &mut Vec<u8>, names: &[Name]) -> Result<(), MemoryOut>
    ensures { OnOk result (out.new.items ≡ out.old.items ++ flat_map next_text names.now) }
{
    for name in names {
        out.extend_from_slice(b" <- ")?;
        out.extend_from_slice(name.as_bytes())?;
    }
    Ok(())
}
