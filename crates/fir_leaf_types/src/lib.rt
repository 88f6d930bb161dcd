//! The types of modules over their leaves: where a circuit shows no fault of names, types or widths, each term has a
//! type, each leaf is driven by what is of its kind, and each condition is one bit (FIRRTL spec, "Expressions",
//! "Connects", "Conditionals", "Width Inference"). Here are definitions and a law alone.
#![tactic(auto)]

mod laws;

pub use laws::leafed_modules_are_typed;
