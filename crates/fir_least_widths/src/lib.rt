//! The least widths that meet bounds: each bound says that an unknown width is at least that of one operation on
//! others (`bound`; FIRRTL spec, "Width Inference"). Widths are in bits, where 129 stands for all that is over 128.
//!
//! All widths begin at 0, and a bound that is not met raises its unknown (`raise`). Which bounds have to be looked
//! at again is told by `readers`, and kept in `waiting`; `work_list` goes on until none waits. `rounds` has the
//! plain program, which goes over all bounds again and again.
#![tactic(auto)]

mod bound;
mod raise;
mod readers;
mod rounds;
mod waiting;
mod work_list;

pub use bound::{Bound, OVER, Term};
pub use rounds::least_widths_by_rounds;
pub use work_list::least_widths;
