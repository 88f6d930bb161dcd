//! The resets and widths of a circuit, found one after the other (`inference`), as one pass (`inference_pass`).
#![tactic(auto)]

mod inference;
mod inference_pass;

pub use inference::infer;
pub use inference_pass::Infer;
