//! A name, which contracts see as its bytes.

ghost use Rattle.std.specs.Prelude.{◌≡◌, IfOk, nat_eq};
ghost use Rattle.std.proofs.Common.{rules};
ghost use Rattle.std.specs.Cmp.{partial_order_from_own_ties};
ghost use Rattle.std.specs.Cmp.Rules.{comparing, hashing};
ghost use Rattle.std.specs.Cmp.Lexicographic.{slice_cmp, pointwise};
ghost use Rattle.std.specs.Ordering.{nat_cmp, as_partial_cmp};

use crate::refused::MemoryOut;
use crate::short_bytes::{MOST_IN_PLACE, ShortBytes};
use std::alloc::Global;
use std::cmp::Ordering;
use std::marker::Model;

/// A name of either language, as the bytes that spell it.
pub struct Name {
    spelling: Spelling,
}

// Not derived, so that a drop is a call, which is proved once.
impl Drop for Name {
    fn drop(self) {
        let Name { spelling: _ } = self;
    }
}

/// Where the bytes of a name are: a few in place, more on the heap.
#[derive(Drop)]
enum Spelling {
    Short(ShortBytes),
    Long(Vec<u8>),
}

// With its bytes in place a name is no larger than with them on the heap.
const _: () = prove!(size_of::<Name>() == 32);

impl Model for Name {
    ghost use Rattle.std.specs.Prelude.{List, ℕ};
    ghost use Rattle.fir_base.specs.declared.name.Spelling.TheVariants.{Short, Long};

    ghost Value = { List ℕ };

    ghost view = { λ n. elim n.spelling [ Short bytes ↦ bytes | Long bytes ↦ bytes.items ] };
}

impl Name {
    /// The name that these bytes spell. It takes no memory.
    pub fn from_vec(bytes: Vec<u8>) -> Name
        ensures { result ≡ bytes.items }
    {
        let spelling = if bytes.len() <= MOST_IN_PLACE {
            Spelling::Short(ShortBytes::new(bytes.as_slice()))
        } else {
            Spelling::Long(bytes)
        };
        Name { spelling }
    }

    /// The name that these bytes spell. It takes memory only where they are not held in place.
    pub fn new(alloc: Global, bytes: &[u8]) -> Result<Name, MemoryOut>
        ensures { IfOk result (λ n. n ≡ bytes.now) }
    {
        let spelling = if bytes.len() <= MOST_IN_PLACE {
            Spelling::Short(ShortBytes::new(bytes))
        } else {
            Spelling::Long(Vec::from_slice(alloc, bytes)?)
        };
        Ok(Name { spelling })
    }

    /// An equal name, with memory of its own where its bytes are not held in place.
    pub fn copy(&self, alloc: Global) -> Result<Name, MemoryOut>
        ensures { IfOk result (λ n. n ≡ self.now) }
    {
        match &self.spelling {
            Spelling::Short(bytes) => Ok(Name {
                spelling: Spelling::Short(bytes.copy()),
            }),
            Spelling::Long(bytes) => Name::new(alloc, bytes.as_slice()),
        }
    }

    /// The bytes that spell the name.
    pub fn as_bytes(&self) -> &[u8]
        ensures { result.now ≡ self.now }
    {
        match &self.spelling {
            Spelling::Short(bytes) => bytes.as_slice(),
            Spelling::Long(bytes) => bytes.as_slice(),
        }
    }
}

impl PartialEq for Name {
    ghost eq = { pointwise nat_eq };

    ghost laws = { Prim.search (comparing, rules) };

    fn eq(&self, other: &Name) -> bool {
        self.as_bytes() == other.as_bytes()
    }
}

impl Eq for Name {
    ghost laws = { Prim.search (comparing, rules) };
}

impl PartialOrd for Name {
    ghost partial_cmp = { as_partial_cmp (slice_cmp nat_cmp) };

    ghost laws = { partial_order_from_own_ties (Prim.search (comparing, rules)) (Prim.search (comparing, rules)) };

    fn partial_cmp(&self, other: &Name) -> Option<Ordering> {
        Some(self.cmp(other))
    }
}

impl Ord for Name {
    ghost cmp = { slice_cmp nat_cmp };

    ghost total = { Prim.search (comparing, rules) };

    ghost matches_partial_cmp = { Prim.search (comparing, rules) };

    ghost matches_eq = { Prim.search (comparing, rules) };

    fn cmp(&self, other: &Name) -> Ordering {
        self.as_bytes().cmp(other.as_bytes())
    }
}
