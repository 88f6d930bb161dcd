//! Names that are free, and are taken then.

ghost use Rattle.std.specs.Prelude.{◌≡◌, IfOk, OnOk, List, ℕ, ◌++◌, codes, not, ◌&&◌};
ghost use Rattle.ver_words.specs.Reserved.{is_reserved};
ghost use Rattle.fir_net.specs.Paths.{base_name};
ghost use Rattle.fir_net_names.specs.Names.{IsNameFor};
ghost use Rattle.fir_net_names.specs.working.NameSets.{Holds, IsFirstUntaken, TakesName, has};

use crate::base_name::base_name;
use crate::numbered::{Numbered, first_untaken};
use crate::taken::Taken;
use fir_base::{MemoryOut, Name};
use std::alloc::Global;
use std::collections::BTreeSet;
use ver_words::is_reserved;

/// The name of a leaf or an array of that path behind those whose names are taken; it is taken then.
pub fn take_name(alloc: Global, taken: &mut Taken, path: &Name) -> Result<Name, MemoryOut>
    ensures { IfOk result (λ name. TakesName taken.old.names taken.new.names (base_name path.now) name) }
{
    let base = base_name(alloc, path)?;
    let name = free_name(alloc, taken, &base)?;
    taken.insert(name.copy(alloc)?)?;
    Ok(name)
}

/// The name of what has a path that is joined to that base: the base, or where that is reserved or taken the
/// first free of `base_0`, `base_1` and so on. What is passed on the way is not searched again for this base.
fn free_name(alloc: Global, taken: &mut Taken, base: &Name) -> Result<Name, MemoryOut>
    ensures named { IfOk result (λ name. (names : List (List ℕ)) → Holds taken.old.names names → IsNameFor names base.now name) }
    ensures same { OnOk result (taken.new.names ≡ taken.old.names) }
{
    if is_free(&taken.names, base) {
        return base.copy(alloc);
    }
    let Numbered { name, number } = first_suffixed(alloc, taken, base)?;
    taken.set_start(base.copy(alloc)?, number as usize)?;
    Ok(name)
}

/// The first of `base_0`, `base_1` and so on that is not taken, searched from where the base starts.
fn first_suffixed(alloc: Global, taken: &Taken, base: &Name) -> Result<Numbered, MemoryOut>
    ensures { IfOk result (λ n. IsFirstUntaken taken.now.names (base.now ++ codes "_") 0 n) }
{
    let front = with_underscore(alloc, base)?;
    let from = taken.start(base) as u128;
    first_untaken(alloc, &taken.names, front.as_slice(), from)
}

fn with_underscore(alloc: Global, base: &Name) -> Result<Vec<u8>, MemoryOut>
    ensures { IfOk result (λ v. v.items ≡ base.now ++ codes "_") }
{
    let mut front = Vec::from_slice(alloc, base.as_bytes())?;
    front.push(b'_')?;
    Ok(front)
}

fn is_free(taken: &BTreeSet<Name>, name: &Name) -> bool
    ensures { result ≡ (not (is_reserved name.now) && not (has taken.now name.now)) }
{
    !is_reserved(name.as_bytes()) && !taken.contains(name)
}
