//! Values and operators of the language: what a width and its values are, and what each primitive
//! operation makes of them (FIRRTL spec, "Primitive Operations").
//!
//! In come an operation, operands and integers. Out comes the type of the result or the fault
//! (`result_type`; its width alone by `counted_width`), and where there is a type the value (`apply`).
//! All are the operator table, which `specs/` states over whole numbers. The words by which operations
//! are spelled stand in the same table. Of a literal the widths are told that hold its number
//! (`least_width`). No call takes memory.
#![tactic(auto)]

mod bits;
pub mod laws;
mod literals;
mod operators;
mod types;
mod values;
mod whole;
mod words;

pub use bits::{Bits, mask};
pub use literals::{holds_number, least_width};
pub use operators::{Form, PrimOp};
pub use types::{NO_TYPE, NumTy, OpFault, counted_width, has_kinds, result_type};
pub use values::{Num, apply};
