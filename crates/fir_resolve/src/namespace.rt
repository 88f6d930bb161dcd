//! A namespace: the names of a circuit's modules, of a bundle's fields, or of a memory's ports.

ghost use Rattle.std.specs.Prelude.{◌≡◌, List, None, [], ◌∷◌, ◌++◌, IfOk, option_map};
ghost use Rattle.fir_ast.specs.Statements.{PlacedName};
ghost use Rattle.fir_ast.specs.working.CodeFaults.{fault_of};
ghost use Rattle.fir_pass.specs.Groups.{first_of};
ghost use Rattle.fir_meaning.specs.Mentions.{declares, placed_name};
ghost use Rattle.fir_meaning.specs.NameGroups.{mention_faults};
ghost use Rattle.fir_resolve.specs.working.Namespaces.{Holds};

use crate::faults::twice;
use fir_ast::{FirFault, Place};
use fir_base::{MemoryOut, Name};
use std::alloc::Global;
use std::collections::BTreeMap;

/// Each name that is declared, with the place of its first declaration.
#[derive(Drop)]
pub struct Namespace {
    first: BTreeMap<Name, Place>,
}

impl Namespace {
    /// Nothing is declared.
    pub fn new(alloc: Global) -> Namespace
        ensures { Holds result [] }
    {
        Namespace {
            first: BTreeMap::new(alloc),
        }
    }

    /// Declares a name. It is a fault, E09, where it is declared already.
    pub fn declare(
        &mut self,
        alloc: Global,
        place: Place,
        name: &Name,
    ) -> Result<Option<FirFault>, MemoryOut>
        ensures fault { IfOk result (λ f. (before : List PlacedName) → Holds self.old before → option_map fault_of f ≡ first_of (mention_faults (declares before (placed_name place name.now)))) }
        ensures held { IfOk result (λ f. f ≡ None → (before : List PlacedName) → Holds self.old before → Holds self.new (before ++ placed_name place name.now ∷ [])) }
    {
        if let Some(first) = self.first.get(name) {
            let first = *first;
            return Ok(Some(twice(alloc, place, name, first)?));
        }
        self.first.insert(name.copy(alloc)?, place)?;
        Ok(None)
    }
}
