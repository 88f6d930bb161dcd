//! Which modules have instances of which, by their numbers.

ghost use Rattle.std.specs.Prelude.{◌≡◌, List, IfOk, map, slice_get};
ghost use Rattle.fir_ast.specs.Statements.{PlacedName};
ghost use Rattle.fir_ast.specs.Circuits.{ModuleTree};
ghost use Rattle.fir_meaning.specs.Components.{Declarations};
ghost use Rattle.fir_names.specs.working.Tabulated.{Tabulates, entry_at};
ghost use Rattle.fir_names.specs.working.Judged.{TabulatesEach};
ghost use Rattle.fir_names.specs.working.Numbered.{instance_numbers, number_read};
ghost use Rattle.fir_names.specs.working.Ordered.{instances_each};

use fir_base::MemoryOut;
use fir_graph::Graph;
use fir_names::{Component, Names};
use std::alloc::Global;

/// For each module the numbers of those that it has instances of, in the order of the text.
#[derive(Drop)]
pub struct Hierarchy {
    pub instances: Vec<Vec<usize>>,
}

impl Graph for Hierarchy {
    ghost use Rattle.std.specs.Prelude.{length};
    ghost use Rattle.fir_resolve.specs.working.Entered.{targets_of};

    ghost size = { λ h. length h.instances.items };

    ghost targets = { targets_of };

    fn size(&self) -> usize {
        self.instances.len()
    }

    /// The module of an instance. A number that is no module's counts as 0: a circuit whose names are
    /// there has none.
    fn target(&self, vertex: usize, place: usize) -> Option<usize> {
        let instances = self.instances.get(vertex)?;
        let number = *instances.get(place)?;
        if number < self.instances.len() {
            Some(number)
        } else {
            Some(0)
        }
    }
}

impl Hierarchy {
    /// The hierarchy of the modules with these tables.
    pub fn new(alloc: Global, tables: &[Names]) -> Result<Hierarchy, MemoryOut>
        ensures { IfOk result (λ h. (names : List PlacedName) (modules : List ModuleTree) → TabulatesEach names tables.now modules → map (λ v. v.items) h.instances.items ≡ instances_each names modules) }
    {
        let mut instances = Vec::new(alloc);
        for table in tables {
            instances.push(instances_in(alloc, table)?)?;
        }
        Ok(Hierarchy { instances })
    }
}

/// The numbers of the modules that a module has instances of.
fn instances_in(alloc: Global, table: &Names) -> Result<Vec<usize>, MemoryOut>
    ensures { IfOk result (λ v. (names : List PlacedName) (ds : Declarations) → Tabulates names table.now ds → v.items ≡ instance_numbers names ds) }
{
    let mut numbers = Vec::new(alloc);
    for position in 0..table.len() {
        if let Some(number) = instance_at(table, position) {
            numbers.push(number)?;
        }
    }
    Ok(numbers)
}

/// The number of the module of an instance that is declared there.
fn instance_at(table: &Names, position: usize) -> Option<usize>
    ensures { result ≡ number_read (entry_at table.now position) }
{
    match table.at(position)?.component {
        Component::Instance(number) => Some(number),
        _ => None,
    }
}
