//! Which Resets of a circuit are asynchronous. In comes a `Typed`, a circuit without a fault of types; out
//! comes a `ResetMap`, or E18, with a walk that joins a UInt and an AsyncReset through Resets (`infer_resets`;
//! FIRRTL spec, "Reset Inference"). What is joined and what a walk is stands in fir_meaning (`joins`,
//! `IsAsynchronous`, `ShowsResets`).
//!
//! What meets in the circuit, by connects, nodes and instances, is told in the order of the text (`circuit`):
//! one walk goes over the statements of each module (`meets`), and passes what is found of their expressions
//! (`notes`). All that meets is joined (`build`, `meetings`), leaf by leaf, where of vectors the first
//! elements stand for all (`pairs`), in one graph (`joined`): of Resets, each with the numbers of its
//! elements, and of the UInts and AsyncResets that they meet. All leaves of one class are joined there, too:
//! the same leaf of the elements of a vector, and of a module's ports and its instances.
//!
//! The search (`search`) goes by breadth, from all AsyncResets at once (`roots`). Each entry of its queue has
//! the place of the entry that it was reached from, so that a walk leads back from a UInt that is met
//! (`walk`). It is told (`told`) without the detours that it makes from one element of a vector to another
//! (`direct`, `element_paths`). Else what is reached is noted by the numbers of leaves (`marked`,
//! `leaf_numbers`).
#![tactic(auto)]

mod build;
mod circuit;
mod direct;
mod edges;
mod element_paths;
mod graph;
mod infer;
mod item;
mod joined;
mod key;
mod leaf_numbers;
mod leaf_offsets;
mod leaf_place;
mod marked;
mod meet;
mod meetings;
mod meets;
mod notes;
mod pairs;
mod path_text;
mod root;
mod roots;
mod search;
mod shapes;
mod told;
mod walk;

pub use graph::Kind;
pub use infer::infer_resets;
pub use search::find_resets;
pub use walk::Walk;
