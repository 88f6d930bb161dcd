//! The name of a module.

ghost use Rattle.std.specs.Prelude.{◌≡◌, IfOk};
ghost use Rattle.ver_words.specs.Names.{module_name};

use crate::reserved::is_reserved;
use fir_base::{MemoryOut, Name};
use std::alloc::Global;

/// The name of the module of a circuit: the circuit's name, with `_0` behind it where it is reserved.
/// Only memory can be wanting.
pub fn module_name(alloc: Global, name: &Name) -> Result<Name, MemoryOut>
    ensures { IfOk result (λ n. n ≡ module_name name.now) }
{
    if !is_reserved(name.as_bytes()) {
        return name.copy(alloc);
    }
    let mut bytes = Vec::from_slice(alloc, name.as_bytes())?;
    bytes.extend_from_slice(b"_0")?;
    Ok(Name::from_vec(bytes))
}
