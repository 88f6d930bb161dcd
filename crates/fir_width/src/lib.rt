//! A circuit with its resets and widths (`Fitted`), and how they are read: the width of a leaf by its number
//! (`Widths::of`), and the leaves of an expression (`side`), by the fields of its type (`field_at`, `member_at`),
//! counted in one of two ways (`counted`). fir_infer_widths finds the widths.
#![tactic(auto)]

mod bundle_fields;
mod by_number;
mod counted;
mod fitted;
mod member_at;
mod side;

pub use bundle_fields::field_at;
pub use by_number::width_at;
pub use counted::Counted;
pub use fitted::{Fitted, Widths};
pub use side::Side;
