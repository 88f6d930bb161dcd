//! What a circuit comes to as ground leaves. In comes a `Fitted`, a circuit with its widths; out comes a
//! `LeafCircuit`, with each module over its ground leaves (`expand`; fir_leaf_table), or E23.
//!
//! `cost` tells how many leaves a circuit has, and how many come together in its expressions and connects: what
//! each module costs alone (`own_costs`: by what was found of it, `found_leaves`, and by its statements,
//! `plain_costs`), then with the modules of its instances (`module_costs`), and all of them (`circuit_cost`;
//! fir_meaning `HasCost`). By it the size of a circuit is limited (`limit`: E23), before anything grows.
#![tactic(auto)]

mod circuit_cost;
mod expanded;
mod found_leaves;
mod laws;
mod limit;
mod module_costs;
mod own_costs;
mod pass;
mod plain_costs;
mod source_meaning;
mod written_leaves;

pub use circuit_cost::cost;
pub use expanded::expand;
pub use laws::has_one_cost;
pub use limit::check_cost;
pub use pass::Expand;
pub use source_meaning::means_its_source;
