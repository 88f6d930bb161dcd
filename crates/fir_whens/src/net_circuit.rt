//! A circuit with a net for each of its modules.

ghost use Rattle.std.specs.Prelude.{◌≡◌};
ghost use Rattle.fir_ast.specs.working.Views.{circuit_of};
ghost use Rattle.fir_pass.specs.Groups.{IsClear};
ghost use Rattle.fir_meaning.specs.SourceUndrivenGroup.{undriven_group};
ghost use Rattle.fir_whens.specs.working.ModuleFaults.{AreAllDriven};
ghost use Rattle.fir_whens.specs.working.NetCircuits.{AreNets, NetsGive};

use crate::module_net::ModuleNet;
use crate::typed_modules::modules_are_typed;
use fir_connect::{roles_are_worth, roles_read_the_same};
use fir_leaf_circuit::LeafCircuit;
use std::marker::Model;

/// A circuit in which every leaf is driven that statements must drive, with the nets of its modules. Contracts see the
/// tree that was given.
pub struct NetCircuit {
    leafed: LeafCircuit,
    nets: Vec<ModuleNet>,
}

// Not derived, so that a drop is a call, which is proved once.
impl Drop for NetCircuit {
    fn drop(self) {
        let NetCircuit { leafed: _, nets: _ } = self;
    }
}

impl Model for NetCircuit {
    ghost use Rattle.fir_ast.specs.declared.circuit.Circuit as tree;
    ghost use Rattle.fir_ast.specs.contracts.circuit.Circuit as contract;

    ghost Value = { tree.Circuit };

    ghost coded = { contract.the_row.coded };

    ghost use Rattle.fir_ast.specs.working.Views.{circuit_of};
    ghost use Rattle.fir_pass.specs.Groups.{IsClear};
    ghost use Rattle.fir_meaning.specs.SourceUndrivenGroup.{undriven_group};
    ghost use Rattle.fir_whens.specs.working.ModuleFaults.{AreAllDriven};
    ghost use Rattle.fir_whens.specs.working.NetCircuits.{AreNets};

    ghost view = { λ n. n.leafed };

    ghost invariant = { λ n. IsClear (undriven_group (circuit_of n.leafed)) × AreAllDriven (circuit_of n.leafed) × AreNets (circuit_of n.leafed) n.nets.items };
}

impl NetCircuit {
    /// The circuit with these nets, by the numbers of its modules.
    pub(crate) fn new(leafed: LeafCircuit, nets: Vec<ModuleNet>) -> NetCircuit
        requires clear { IsClear (undriven_group (circuit_of leafed)) }
        requires driven { AreAllDriven (circuit_of leafed) }
        requires nets { AreNets (circuit_of leafed) nets.items }
        ensures { result ≡ leafed }
    {
        NetCircuit { leafed, nets }
    }

    /// The circuit over its ground leaves.
    pub fn leafed(&self) -> &LeafCircuit
        ensures tree { result.now ≡ self.now }
        ensures clear { IsClear (undriven_group (circuit_of self.now)) }
        ensures driven { AreAllDriven (circuit_of self.now) }
    {
        &self.leafed
    }

    /// The nets of the modules, by their numbers. For all values within the widths of the leaves each leaf gets in its
    /// module's net what the statements and expressions of the module give it, and is read what these read (FIRRTL
    /// spec, "Last Connect Semantics", "Conditional Last Connect Semantics").
    pub fn nets(&self) -> &[ModuleNet]
        ensures nets { AreNets (circuit_of self.now) result.now }
        ensures give { NetsGive (circuit_of self.now) result.now }
    {
        modules_are_typed(&self.leafed);
        roles_are_worth();
        roles_read_the_same();
        &self.nets
    }
}
