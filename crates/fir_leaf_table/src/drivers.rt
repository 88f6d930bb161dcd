//! What gives the declarations that come their values.

ghost use Rattle.std.specs.Prelude.{◌≡◌, ◌∷◌, List, option_map};
ghost use Rattle.fir_ground.specs.working.DeclarationDrivers.{DriverMeant, drivers_seen};
ghost use Rattle.fir_leaf.specs.declared.node.Node.{Node};
ghost use Rattle.fir_leaf_table.specs.working.TakenDrivers.{TakesDriver};

use crate::walk::Walk;
use fir_ground::Driver;

impl<'a> Walk<'a> {
    /// What gives the declaration that comes its values, which is passed.
    pub fn next_driver(&mut self) -> Option<&'a Driver>
        ensures takes { (nodes : List Node) (meant : DriverMeant) (rest : List DriverMeant) → drivers_seen nodes self.old.drivers.now ≡ meant ∷ rest → TakesDriver nodes meant rest (option_map (λ d. d.now) result) self.new }
        ensures stays { self.new ≡ record self.old { drivers = self.new.drivers } }
    {
        let [driver, rest @ ..] = self.drivers else {
            return None;
        };
        self.drivers = rest;
        Some(driver)
    }
}
