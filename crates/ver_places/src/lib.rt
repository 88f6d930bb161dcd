//! The places of the parts of a tree of the Verilog subset. In comes a tree with the places of its text, and out come the
//! places behind its parts (`passed`), and those of its items (`starts`). What these are stands in specs/ (Places,
//! ItemPlaces).
#![tactic(auto)]

mod passed;
mod places;
mod starts;

pub use passed::{array_places, behind_item, behind_port, behind_ports, range_places};
pub use places::{behind, place_at};
pub use starts::item_starts;
