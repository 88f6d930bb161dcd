//! Directed graphs, whose vertices are numbered. In comes a graph (`Graph`); out comes an order in which each
//! vertex stands behind all its targets, or a circle of vertices that makes one impossible (`order`). What
//! these are stands in specs/ (`IsOrder`, `IsCircle`).
//!
//! A search by depth (`search`) marks the vertices (`marks`), and ends with an order or with a circle. In
//! place of that circle a search by breadth (`breadth`) offers a shortest one, which counts if it is one
//! (`circle_check`).
#![tactic(auto)]

mod breadth;
mod circle_check;
mod graph;
mod marks;
mod ordering;
mod search;

pub use graph::Graph;
pub use ordering::order;
