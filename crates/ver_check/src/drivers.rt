//! The names that have a driver.

ghost use Rattle.std.specs.Prelude.{◌≡◌, List, [], ◌∷◌, ◌++◌, OnOk};
ghost use Rattle.ver_check.specs.ItemFaults.{Driver};
ghost use Rattle.ver_check.specs.working.Known.{Drives, driver_in};

use fir_base::{MemoryOut, Name};
use indexmap::IndexMap;
use std::alloc::Global;
use ver_ast::VPlace;

/// The names that have a driver, each with its place in the first one.
pub struct Drivers {
    names: IndexMap<Vec<u8>, VPlace>,
}

// Not derived, so that a drop is a call, which is proved once.
impl Drop for Drivers {
    fn drop(self) {
        let Drivers { names: _ } = self;
    }
}

impl Drivers {
    /// Nothing is driven.
    pub fn new(alloc: Global) -> Drivers
        ensures { Drives result [] }
    {
        Drivers {
            names: IndexMap::new(alloc),
        }
    }

    /// Notes the driver of a name that has none yet.
    pub fn drive(&mut self, alloc: Global, name: &Name, place: VPlace) -> Result<(), MemoryOut>
        ensures { OnOk result ((ds : List Driver) → Drives self.old ds → driver_in self.old name.now ≡ None → Drives self.new (ds ++ record { name = name.now; place = place } ∷ [])) }
    {
        let name = Vec::from_slice(alloc, name.as_bytes())?;
        self.names.insert(name, place)?;
        Ok(())
    }

    /// Where a name stands in its driver, if it has one.
    pub fn find(&self, name: &Name) -> Option<VPlace>
        ensures { result ≡ driver_in self.now name.now }
    {
        self.names.get(name.as_bytes()).copied()
    }
}
