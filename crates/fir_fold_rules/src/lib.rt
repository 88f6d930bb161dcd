//! The rules by which nodes of a net are folded. In come the leaves and nodes that there are, and a node that is to be
//! put behind them; out comes what stands in its place (`simplified`): a leaf or a node that has its value already, a
//! literal, or a node that costs less. Rules speak of terms (`Term`), and each is one function: `rules` reads as their
//! list. What a rule gives is taken only where it has the node's type. What has to be kept stands in specs/ (`Replaces`).
#![tactic(auto)]

mod checking;
mod literals;
mod lookups;
mod making;
mod operand;
mod replacement;
mod rules;
mod simplifying;
mod term;

pub use replacement::Replacement;
pub use simplifying::simplified;
