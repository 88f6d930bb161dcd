//! The order of a net. In comes a whole net; out comes an order of its leaves and nodes, in which each stands
//! behind all that it hangs on, or the closed walk of dependence that makes one impossible (E28). What a leaf
//! hangs on stands in fir_net (`Dependence`, `IsOrder`), and what a closed walk is in specs/ (`IsLoop`).
//!
//! The leaves and nodes are the vertices of a graph (`net_graph`), whose targets are what they hang on
//! (`vertex`). A circle in it is, without its nodes, a closed walk (`circle`).
#![tactic(auto)]

mod circle;
mod entries;
pub mod laws;
mod net_graph;
mod ordering;
mod vertex;

pub use circle::{leaf_of, paths_of};
pub use entries::Order;
pub use ordering::order;
pub use vertex::read_at;
