//! Circuits and modules (FIRRTL spec, "Circuits", "Modules").

use crate::place::Place;
use crate::statements::{Ident, Stmt};
use crate::types::Ty;
use fir_base::Direction;

/// A circuit: its name, and its modules in text order.
pub struct Circuit {
    pub ident: Ident,
    pub modules: Vec<Module>,
}

/// A module.
#[derive(Drop)]
pub struct Module {
    /// Where its word `module` stands.
    pub place: Place,
    pub ident: Ident,
    pub ports: Vec<Port>,
    pub body: Vec<Stmt>,
}

/// A port.
#[derive(Drop)]
pub struct Port {
    pub direction: Direction,
    pub ident: Ident,
    /// Where the first token of its type stands.
    pub type_place: Place,
    pub ty: Ty,
}

// Not derived, so that a drop is a call, which is proved once.
impl Drop for Circuit {
    fn drop(self) {
        let Circuit {
            ident: _,
            modules: _,
        } = self;
    }
}
