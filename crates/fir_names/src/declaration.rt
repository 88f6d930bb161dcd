//! What a name is declared as.

use fir_ast::Place;
use fir_base::Direction;

/// The kind of a component (FIRRTL spec, "Ports", "Wires", "Registers", "Nodes", "Instances", "Memories").
#[derive(Clone, Copy, PartialEq, Eq)]
pub enum Component {
    Port(Direction),
    Wire,
    Register,
    Node,
    /// An instance of the module with that number, from 0 on in the order of the text.
    Instance(usize),
    Memory,
}

/// A declaration in a module.
#[derive(Clone, Copy)]
pub struct Declaration {
    /// Where its name stands.
    pub place: Place,
    pub component: Component,
    /// How many declarations stand before it in its module. A walk over the tree in the order of the text
    /// meets the declarations by these numbers, the ports first.
    pub position: usize,
    /// How many whens stand round it.
    pub depth: usize,
}
