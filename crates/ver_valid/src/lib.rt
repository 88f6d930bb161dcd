//! Judges a tree of the Verilog subset: what comes in is a tree that any text may have spelled, and what goes out is
//! whether it is valid. The answer is exact, as `specs/Valid` of ver_ast has it: no tree that is not valid passes, and
//! none that is valid is turned away.
//! One walk goes over the ports and the items in the order of the text (`walk`), and judges each against what is
//! declared before it (`scope`, `operand`, `side`, `block`) and driven (`driven`); then every wire and output has to be
//! driven, and the processes have to have an order; where they have none there is a circle of them (`ordered`).
#![tactic(auto)]

mod block;
mod declared;
mod driven;
mod drivers;
mod judge;
mod misfit;
mod numbers;
mod operand;
mod ordered;
mod processes;
mod reads;
mod scope;
mod side;
mod walk;

pub use judge::valid;
pub use ordered::closed_walk;
pub use processes::target_names;
