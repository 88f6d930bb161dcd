//! A circuit over ground leaves.

ghost use Rattle.std.specs.Prelude.{◌≡◌};
ghost use Rattle.fir_ast.specs.working.Views.{circuit_of};
ghost use Rattle.fir_pass.specs.Groups.{IsClear};
ghost use Rattle.fir_meaning.specs.CostGroup.{cost_group};
ghost use Rattle.fir_leaf_circuit.specs.working.Leafed.{AreLeafed};
ghost use Rattle.fir_meaning.specs.working.Scenes.{HasScenes};
ghost use Rattle.fir_leaf_circuit.specs.working.LeafStores.{StoreAsTheirTrees};

use crate::leaf_module::LeafModule;
use crate::scenes::has_scenes;
use fir_leaf::{numbers_are_leaves, table_has_facts, table_stores};
use fir_pass::Meant;
use fir_width::Fitted;
use std::marker::Model;

/// A circuit that costs no more than the limit, with its modules over their ground leaves. Contracts see the
/// tree that was given.
pub struct LeafCircuit {
    fitted: Fitted,
    modules: Vec<LeafModule>,
}

// Not derived, so that a drop is a call, which is proved once.
impl Drop for LeafCircuit {
    fn drop(self) {
        let LeafCircuit {
            fitted: _,
            modules: _,
        } = self;
    }
}

impl Model for LeafCircuit {
    ghost use Rattle.fir_ast.specs.declared.circuit.Circuit as tree;
    ghost use Rattle.fir_ast.specs.contracts.circuit.Circuit as contract;

    ghost Value = { tree.Circuit };

    ghost coded = { contract.the_row.coded };

    ghost use Rattle.fir_ast.specs.working.Views.{circuit_of};
    ghost use Rattle.fir_pass.specs.Groups.{IsClear};
    ghost use Rattle.fir_meaning.specs.CostGroup.{cost_group};
    ghost use Rattle.fir_leaf_circuit.specs.working.Leafed.{AreLeafed};

    ghost view = { λ l. l.fitted };

    ghost invariant = { λ l. IsClear (cost_group (circuit_of l.fitted)) × AreLeafed (circuit_of l.fitted) l.modules.items };
}

impl Meant for LeafCircuit {
    ghost use Rattle.fir_meaning.specs.working.Stages.{IsTreeOf};

    ghost is_of = { IsTreeOf };
}

impl LeafCircuit {
    /// The circuit with these modules, by their numbers.
    pub fn new(fitted: Fitted, modules: Vec<LeafModule>) -> LeafCircuit
        requires clear { IsClear (cost_group (circuit_of fitted)) }
        requires leafed { AreLeafed (circuit_of fitted) modules.items }
        ensures { result ≡ fitted }
    {
        LeafCircuit { fitted, modules }
    }

    /// The circuit with its widths.
    pub fn fitted(&self) -> &Fitted
        ensures tree { result.now ≡ self.now }
        ensures clear { IsClear (cost_group (circuit_of self.now)) }
    {
        &self.fitted
    }

    /// The modules over their ground leaves, by their numbers: of each the leaf view that the definitions give of
    /// it, and so, for all values, at every leaf what the statements of its tree store there (FIRRTL spec,
    /// "Connects", "Conditional Last Connect Semantics").
    pub fn modules(&self) -> &[LeafModule]
        ensures leafed { AreLeafed (circuit_of self.now) result.now }
        ensures stores { StoreAsTheirTrees (circuit_of self.now) result.now }
        ensures scenes { HasScenes (circuit_of self.now) }
    {
        table_stores();
        table_has_facts();
        numbers_are_leaves();
        has_scenes(&self.fitted);
        let named = self.fitted.typed().named();
        // Its names are known to stand.
        let _circuit = named.circuit();
        &self.modules
    }
}
