//! The widths of a circuit. In comes a `Typed`, a circuit without a fault of types, with its resets; out comes a
//! `Fitted` (`fir_width`), the same circuit with the least widths that meet all its rules; or the first fault of
//! widths: E19, or else E20 to E22 (FIRRTL spec, "Width Inference", "Primitive Operations", "Literals",
//! "Conditionals").
//!
//! `solve` (in `fit`) goes three ways one after another. One walk over the text (`circuit`, `module`,
//! `statements`, `drives`, `expressions`, `forms`) gives each leaf and each expression a number (`arena`,
//! `declared`), and makes bounds: each says that the width of a number is at least that of one operation
//! on other numbers (`meet`). It notes the spots where faults may stand (`spot`). Then the least widths
//! that meet all bounds are found (`fir_least_widths`), in bits, where 129 stands for all that is over
//! 128. Then the spots are looked at with these widths, for E19 (`over`) and for E20 to E22 (`legal`).
//!
//! A walk down a type (`leaves`) goes over the fields that have leaves and over no others: `field_at` of
//! fir_width finds each by the number of its first leaf.
#![tactic(auto)]

mod arena;
mod circuit;
mod declared;
mod direction;
mod drives;
mod expressions;
mod first_leaf;
mod first_over;
mod first_unwritten;
mod first_written_over;
mod fit;
mod forms;
mod ground;
mod integers;
mod leaf_path;
mod leaves;
mod legal;
mod meet;
mod module;
mod over;
mod spot;
mod statements;
mod walk;

pub use fit::solve;
