//! Names that end with a number.

ghost use Rattle.std.specs.Prelude.{◌≡◌, ◌+◌, ◌^◌, ◌≤◌, ◌++◌, IfOk, decimal};
ghost use Rattle.fir_net_names.specs.working.NameSets.{IsFirstUntaken};

use fir_base::{MemoryOut, Name, put_decimal};
use std::alloc::Global;
use std::collections::BTreeSet;

/// A name, and the number at its end.
#[derive(Drop)]
pub struct Numbered {
    pub name: Name,
    pub number: u128,
}

/// The first name that is not taken of these bytes and a number behind them, with the numbers from this
/// one on.
pub fn first_untaken(
    alloc: Global,
    taken: &BTreeSet<Name>,
    front: &[u8],
    from: u128,
) -> Result<Numbered, MemoryOut>
    requires room { from + 2 ^ 64 ≤ 2 ^ 128 }
    ensures { IfOk result (λ n. IsFirstUntaken taken.now front.now from n) }
{
    // Of one name more than are taken, one is free.
    let last = from + taken.len() as u128;
    for number in from..last {
        let name = with_number(alloc, front, number)?;
        if !taken.contains(&name) {
            return Ok(Numbered { name, number });
        }
    }
    Ok(Numbered {
        name: with_number(alloc, front, last)?,
        number: last,
    })
}

fn with_number(alloc: Global, front: &[u8], number: u128) -> Result<Name, MemoryOut>
    ensures { IfOk result (λ n. n ≡ front.now ++ decimal number) }
{
    let mut bytes = Vec::from_slice(alloc, front)?;
    put_decimal(&mut bytes, number)?;
    Ok(Name::from_vec(bytes))
}
