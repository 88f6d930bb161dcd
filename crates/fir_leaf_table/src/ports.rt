//! The leaves of a module's ports (FIRRTL spec, "Ports").

ghost use Rattle.std.specs.Prelude.{[], ◌∷◌, map};
ghost use Rattle.fir_ast.specs.working.Views.{port_of};
ghost use Rattle.fir_leaf_table.specs.working.Walks.{PassesPorts};

use crate::frame::Frame;
use crate::giver::Giver;
use crate::places::Places;
use crate::push::push_leaves;
use crate::walk::Walk;
use fir_ast::Port;
use fir_base::MemoryOut;
use std::alloc::Global;

/// The leaves of these ports are put behind those that are there.
pub fn in_ports(
    ports: &[Port],
    alloc: Global,
    frame: &Frame,
    walk: &mut Walk,
) -> Result<(), MemoryOut>
    ensures { PassesPorts frame.now (map port_of ports.now) walk.old walk.new result }
{
    for port in ports {
        in_port(alloc, frame, port, walk)?;
    }
    Ok(())
}

/// The leaves of a port.
fn in_port(alloc: Global, frame: &Frame, port: &Port, walk: &mut Walk) -> Result<(), MemoryOut>
    ensures { PassesPorts frame.now (port_of port.now ∷ []) walk.old walk.new result }
{
    push_leaves(
        alloc,
        frame,
        0,
        &Places::Own(port.ident.place),
        &Giver::Port(port.direction),
        walk,
    )
}
