//! Flat nets: the leaves that a circuit declares, and the nodes that compute values of them. Nodes read
//! leaves and nodes before them; what drives a leaf may stand anywhere, so that leaves may close rings. What
//! a net means stands in specs/ (`Values`, `Settled`, `Next`, `Allows`), on what a leaf hangs in
//! `Dependence`. Here are also the counts of a net, and nodes of which no two are equal (`share`).
#![tactic(auto)]

mod array;
mod counting;
pub mod laws;
mod leaf;
mod net;
mod node;
mod reads;
mod sharing;
mod totals;

pub use array::{Array, ArrayRead, ArrayWrite, Pipe};
pub use counting::counts;
pub use leaf::{Leaf, Register, Reset, ResetKind, Role};
pub use net::FlatNet;
pub use node::{Mux, Node, Operation};
pub use reads::{Read, Reads};
pub use sharing::share;
pub use totals::Counts;
