//! What stands round the declarations of a module.

use fir_ast::{LeafId, Place};
use fir_names::Names;
use fir_types::{Findings, Found};
use fir_width::Fitted;

/// A module of a circuit, by its number, with what is found of it.
#[derive(Clone, Copy)]
pub struct Frame<'a> {
    pub fitted: &'a Fitted,
    pub findings: &'a Findings,
    pub number: usize,
    pub names: &'a Names,
    /// The types of what it declares, in the order of the text.
    pub declared: &'a [Option<Found>],
    /// The number of the first leaf of each, where all elements of a vector have the numbers of one.
    pub first_leaves: &'a [LeafId],
    /// Of each module of the circuit, where the leaves of its ports stand.
    pub port_places: &'a [Vec<Place>],
}
