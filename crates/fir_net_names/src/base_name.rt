//! The name that a path gives its leaf or array.

ghost use Rattle.std.specs.Prelude.{◌≡◌, ◌++◌, IfOk, OnOk};
ghost use Rattle.fir_net.specs.Paths.{base_name, named_byte};

use fir_base::{MemoryOut, Name};
use std::alloc::Global;

/// The base of the name: the path, with `_` for each `.` and before each index.
pub fn base_name(alloc: Global, path: &Name) -> Result<Name, MemoryOut>
    ensures { IfOk result (λ name. name ≡ base_name path.now) }
{
    let mut bytes = Vec::new(alloc);
    for byte in path.as_bytes() {
        put_named(&mut bytes, *byte)?;
    }
    Ok(Name::from_vec(bytes))
}

fn put_named(bytes: &mut Vec<u8>, byte: u8) -> Result<(), MemoryOut>
    ensures { OnOk result (bytes.new.items ≡ bytes.old.items ++ named_byte byte) }
{
    match byte {
        b'.' | b'[' => bytes.push(b'_')?,
        b']' => (),
        _ => bytes.push(byte)?,
    }
    Ok(())
}
