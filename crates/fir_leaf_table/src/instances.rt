//! The leaves of an instance (FIRRTL spec, "Instances").

ghost use Rattle.fir_ast.specs.declared.place.Place.{Place};
ghost use Rattle.fir_ast.specs.Statements as tree;
ghost use Rattle.fir_ast.specs.Statements.{PlacedName};
ghost use Rattle.fir_ast.specs.working.Views.{named_of};
ghost use Rattle.fir_leaf_table.specs.working.Walks.{PassesStatement};

use crate::frame::Frame;
use crate::giver::Giver;
use crate::places::Places;
use crate::port_places::port_places;
use crate::push::push_leaves;
use crate::walk::Walk;
use fir_ast::Ident;
use fir_base::MemoryOut;
use std::alloc::Global;

/// An instance of that name. A leaf that it takes stands at the name, and one that it gives at the port.
pub fn in_instance(
    alloc: Global,
    frame: &Frame,
    depth: usize,
    ident: &Ident,
    walk: &mut Walk,
) -> Result<(), MemoryOut>
    ensures { (place : Place) (other : PlacedName) → PassesStatement frame.now (tree.instance place (named_of ident.now) other) depth walk.old walk.new result }
{
    let ports = port_places(frame, walk.declared);
    walk.next_driver();
    push_leaves(
        alloc,
        frame,
        depth,
        &Places::Ports(ident.place, ports),
        &Giver::Instance,
        walk,
    )
}
