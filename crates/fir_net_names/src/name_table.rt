//! The names of a net in the emitted text.

ghost use Rattle.std.specs.Prelude.{◌≡◌, ◌++◌, slice_get, None, unwrap_or, option_map};
ghost use Rattle.fir_net_names.specs.working.LeafNamed.{somes};
ghost use Rattle.fir_net_names.specs.working.NameSets.{Holds};

mod inner_nets;
mod naming;

use fir_ast::LeafId;
use fir_base::{Name, Seq};
pub use naming::names;
use std::collections::BTreeSet;

/// The names of a net: of the module, and of each port, register and array.
#[derive(Drop)]
pub struct NameTable {
    circuit: Name,
    leaves: Seq<Option<Name>>,
    arrays: Seq<Option<Name>>,
    taken: BTreeSet<Name>,
    ghost held: { Holds taken (somes leaves ++ somes arrays) },
}

impl NameTable {
    /// The name of the module.
    pub fn module_name(&self) -> &Name
        ensures { result.now ≡ self.now.circuit }
    {
        &self.circuit
    }

    /// The name of a port or register; one of no bits, and a wire, has none.
    pub fn leaf(&self, leaf: LeafId) -> Option<&Name>
        ensures { option_map (λ n. n.now) result ≡ unwrap_or (slice_get self.now.leaves leaf) None }
    {
        match self.leaves.as_slice().get(leaf.number()) {
            Some(Some(name)) => Some(name),
            _ => None,
        }
    }

    /// The name of an array, by its number; one of no bits has none.
    pub fn array(&self, array: usize) -> Option<&Name>
        ensures { option_map (λ n. n.now) result ≡ unwrap_or (slice_get self.now.arrays array) None }
    {
        match self.arrays.as_slice().get(array) {
            Some(Some(name)) => Some(name),
            _ => None,
        }
    }
}
