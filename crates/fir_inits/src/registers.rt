//! The registers whose resets take effect at once.

ghost use Rattle.std.specs.Prelude.{◌≡◌, IfOk, length};
ghost use Rattle.fir_inits.specs.working.AsyncInits.{async_init, reset_init, AreAsync};

use fir_ast::{LeafId, Place};
use fir_base::MemoryOut;
use fir_net::{FlatNet, Leaf, Read, Reset, ResetKind, Role};
use std::alloc::Global;

/// A register with an asynchronous reset: its leaf, where that is declared, and what the register shows while the
/// reset is 1.
#[derive(Clone, Copy)]
pub struct AsyncRegister {
    pub leaf: LeafId,
    pub place: Place,
    pub init: Read,
}

/// All of a net, by their places and then by their numbers.
pub fn async_registers(alloc: Global, net: &FlatNet) -> Result<Vec<AsyncRegister>, MemoryOut>
    ensures { IfOk result (λ v. AreAsync net.now (length net.now.leaves) v.items) }
{
    let mut registers = found_registers(alloc, net)?;
    registers.sort_by_key(|register| (register.place.line, register.place.col))?;
    Ok(registers)
}

/// All of a net, by their numbers.
fn found_registers(alloc: Global, net: &FlatNet) -> Result<Vec<AsyncRegister>, MemoryOut>
    ensures { IfOk result (λ v. AreAsync net.now (length net.now.leaves) v.items) }
{
    let mut registers = Vec::new(alloc);
    for (number, leaf) in net.leaves.as_slice().iter().enumerate() {
        if let Some(init) = async_init(leaf) {
            registers.push(AsyncRegister {
                leaf: LeafId::new(number),
                place: leaf.place,
                init,
            })?;
        }
    }
    Ok(registers)
}

/// The init of a register with an asynchronous reset.
pub fn async_init(leaf: &Leaf) -> Option<Read>
    ensures { result ≡ async_init leaf.now.role }
{
    match leaf.role {
        Role::Register(register) => reset_init(register.reset),
        _ => None,
    }
}

fn reset_init(reset: Option<Reset>) -> Option<Read>
    ensures { result ≡ reset_init reset }
{
    match reset {
        Some(
            Reset {
                kind: ResetKind::Asynchronous,
                condition: _,
                init,
            },
        ) => Some(init),
        _ => None,
    }
}
