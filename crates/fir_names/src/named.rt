//! A circuit whose names are resolved.

ghost use Rattle.std.specs.Prelude.{◌≡◌, IsSomeAnd, Some, option_copied, option_map, slice_get};
ghost use Rattle.fir_ast.specs.Circuits.{ModuleTree};
ghost use Rattle.fir_ast.specs.working.Views.{circuit_of, port_of};
ghost use Rattle.fir_meaning.specs.Mentions.{module_names};
ghost use Rattle.fir_meaning.specs.working.NameGroups.{HasNames};
ghost use Rattle.fir_meaning.specs.Visibility.{declarations};
ghost use Rattle.fir_names.specs.working.ModuleOrder.{IsModuleOrder};
ghost use Rattle.fir_names.specs.working.PortNames.{find_port};
ghost use Rattle.fir_names.specs.working.Tabulated.{Tabulates};
ghost use Rattle.fir_names.specs.working.IsNamed.{IsNamed};

use crate::declaration::Component;
use crate::names::Names;
use fir_ast::{Circuit, Port};
use fir_base::Name;
use fir_pass::Meant;
use std::marker::Model;

/// A circuit in which no fault of names stands, with a table of what each module declares and an order of
/// its modules. Contracts see the tree that was given.
pub struct Named {
    circuit: Circuit,
    tables: Vec<Names>,
    order: Vec<usize>,
}

// Not derived, so that a drop is a call, which is proved once.
impl Drop for Named {
    fn drop(self) {
        let Named {
            circuit: _,
            tables: _,
            order: _,
        } = self;
    }
}

impl Model for Named {
    ghost use Rattle.fir_ast.specs.declared.circuit.Circuit as tree;
    ghost use Rattle.fir_ast.specs.contracts.circuit.Circuit as contract;

    ghost Value = { tree.Circuit };

    ghost coded = { contract.the_row.coded };

    ghost use Rattle.fir_ast.specs.working.Views.{circuit_of};
    ghost use Rattle.fir_names.specs.working.IsNamed.{IsNamed};

    ghost view = { λ n. n.circuit };

    ghost invariant = { λ n. IsNamed (circuit_of n.circuit) n.tables.items n.order.items };
}

impl Meant for Named {
    ghost use Rattle.fir_meaning.specs.working.Stages.{IsTreeOf};

    ghost is_of = { IsTreeOf };
}

impl Named {
    /// The circuit with these tables and this order.
    pub fn new(circuit: Circuit, tables: Vec<Names>, order: Vec<usize>) -> Named
        requires { IsNamed (circuit_of circuit) tables.items order.items }
        ensures { result ≡ circuit }
    {
        Named {
            circuit,
            tables,
            order,
        }
    }

    /// The tree.
    pub fn circuit(&self) -> &Circuit
        ensures tree { result.now ≡ self.now }
        ensures named { HasNames (circuit_of self.now) }
    {
        &self.circuit
    }

    /// The table of the module with that number, from 0 on in the order of the text.
    pub fn names(&self, module_number: usize) -> Option<&Names>
        ensures { (m : ModuleTree) → slice_get (circuit_of self.now).modules module_number ≡ Some m → IsSomeAnd result (λ t. Tabulates (module_names (circuit_of self.now)) t.now (declarations m)) }
    {
        self.tables.get(module_number)
    }

    /// The port that a name declares in the module with that number.
    pub fn port(&self, module_number: usize, name: &Name) -> Option<&Port>
        ensures { (m : ModuleTree) → slice_get (circuit_of self.now).modules module_number ≡ Some m → option_map port_of (option_copied result) ≡ find_port m.ports name.now }
    {
        let declaration = self.tables.get(module_number)?.find(name)?;
        let Component::Port(_) = declaration.component else {
            return None;
        };
        let part = self.circuit.modules.as_slice().get(module_number)?;
        part.ports.as_slice().get(declaration.position)
    }

    /// The numbers of the modules in an order in which each stands behind those that it has instances of.
    pub fn module_order(&self) -> &[usize]
        ensures { IsModuleOrder (circuit_of self.now) result.now }
    {
        self.order.as_slice()
    }
}
