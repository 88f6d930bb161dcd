//! The names that are declared so far.

ghost use Rattle.std.specs.Prelude.{◌≡◌, [], ◌∷◌, ◌++◌, None, OnOk};
ghost use Rattle.ver_check.specs.Scopes.{Scope as Declarations};
ghost use Rattle.ver_check.specs.working.Known.{IsNarrowKind, Knows, found, declared};

use crate::kind::Kind;
use fir_base::{MemoryOut, Name};
use indexmap::IndexMap;
use std::alloc::Global;
use ver_ast::VPlace;

/// What a name is declared as, and where the name stands there.
#[derive(Clone, Copy)]
pub struct Entry {
    pub kind: Kind,
    pub place: VPlace,
}

/// What each name is declared as, by the first of its declarations.
pub struct Scope {
    names: IndexMap<Vec<u8>, Entry>,
}

// Not derived, so that a drop is a call, which is proved once.
impl Drop for Scope {
    fn drop(self) {
        let Scope { names: _ } = self;
    }
}

impl Scope {
    /// Nothing is declared.
    pub fn new(alloc: Global) -> Scope
        ensures { Knows result [] }
    {
        Scope {
            names: IndexMap::new(alloc),
        }
    }

    /// Declares a name that is not declared yet.
    pub fn declare(&mut self, alloc: Global, name: &Name, entry: Entry) -> Result<(), MemoryOut>
        ensures { OnOk result ((ds : Declarations) → Knows self.old ds → found self.old name.now ≡ None → IsNarrowKind entry.kind → Knows self.new (ds ++ declared name.now entry ∷ [])) }
    {
        let name = Vec::from_slice(alloc, name.as_bytes())?;
        self.names.insert(name, entry)?;
        Ok(())
    }

    /// What a name is declared as, and where, if it is.
    pub fn find(&self, name: &Name) -> Option<Entry>
        ensures { result ≡ found self.now name.now }
    {
        self.names.get(name.as_bytes()).copied()
    }
}
