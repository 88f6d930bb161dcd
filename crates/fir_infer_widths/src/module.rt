//! The walk over a module.

ghost use Rattle.std.specs.Prelude.{◌≡◌, ◌++◌, List, [], ◌∷◌, map, OnOk};
ghost use Rattle.fir_ast.specs.Circuits.{CircuitTree};
ghost use Rattle.fir_ast.specs.working.Views.{module_of, named_of, port_of};
ghost use Rattle.fir_ast.specs.working.TypeViews.{type_of};
ghost use Rattle.fir_meaning.specs.Components as component;
ghost use Rattle.fir_meaning.specs.Visibility.{Before, at_head, behind_ports, declarations, with_declaration};
ghost use Rattle.fir_meaning.specs.SizedDeclarations.{NumberedModule};
ghost use Rattle.fir_meaning.specs.working.WellTyped.{AreLegal};
ghost use Rattle.fir_meaning.specs.WidthExpressions.{Rule, Width};
ghost use Rattle.fir_meaning.specs.WidthRules.{rules_in_block};
ghost use Rattle.fir_types.specs.working.ModuleNotes.{module_notes};
ghost use Rattle.fir_types.specs.working.Notes.{Note as Meant};
ghost use Rattle.fir_types.specs.working.Walked.{Begins};
ghost use Rattle.fir_infer_widths.specs.working.Spots.{spot_at, spots_in_module, spots_in_ports};
ghost use Rattle.fir_infer_widths.specs.working.Walks.{Comes, ComesBehind, Declares, EntersAt};

use crate::ground::Ground;
use crate::spot::{Spot, put_spot};
use crate::statements::{declared, in_block};
use crate::walk::Walk;
use fir_ast::{Module, Port};
use fir_base::MemoryOut;
use std::alloc::Global;

/// The ports of a module, and its statements.
pub fn in_module<'a>(
    part: &'a Module,
    alloc: Global,
    ground: &Ground<'a>,
    walk: &mut Walk<'a>,
) -> Result<(), MemoryOut>
    ensures { (c : CircuitTree) (m : NumberedModule) (meant : List Width) (rules : List Rule) (rest : List Meant) → m.inside ≡ module_of part.now → EntersAt c ground.now m at_head meant rules (module_notes m.modules m.inside ++ rest) walk.old → AreLegal m.modules (behind_ports at_head m.inside.ports) m.inside.body → OnOk result (Comes c ground.now meant rules (rules_in_block m (behind_ports at_head m.inside.ports) m.inside.body) rest (spots_in_module m) walk.old walk.new) }
{
    in_ports(&part.ports, ground, walk)?;
    in_block(&part.body, alloc, ground, walk)
}

/// Ports, in the order of the text.
fn in_ports<'a>(
    ports: &'a [Port],
    ground: &Ground<'a>,
    walk: &mut Walk<'a>,
) -> Result<(), MemoryOut>
    ensures { (c : CircuitTree) (m : NumberedModule) (before : Before) (meant : List Width) (rules : List Rule) (rest : List Meant) → EntersAt c ground.now m before meant rules rest walk.old → Begins (behind_ports before (map port_of ports.now)).declared (declarations m.inside) → OnOk result (ComesBehind c ground.now (behind_ports before (map port_of ports.now)) meant rules [] rest (spots_in_ports m before (map port_of ports.now)) walk.old walk.new) }
{
    for port in ports {
        in_port(ground, walk, port)?;
    }
    Ok(())
}

/// A port; those of the main module are to have written widths.
fn in_port<'a>(ground: &Ground<'a>, walk: &mut Walk<'a>, port: &'a Port) -> Result<(), MemoryOut>
    ensures { (c : CircuitTree) (m : NumberedModule) (before : Before) (meant : List Width) (rules : List Rule) (rest : List Meant) → Declares c ground.now m before (named_of port.now.ident) (component.port port.now.direction (type_of port.now.ty)) (type_of port.now.ty) meant rules rest walk.old → OnOk result (ComesBehind c ground.now (with_declaration before (named_of port.now.ident) (component.port port.now.direction (type_of port.now.ty))) meant rules [] rest (spot_at m before (named_of port.now.ident) (component.port port.now.direction (type_of port.now.ty)) ∷ []) walk.old walk.new) }
{
    if ground.is_main {
        let own = walk.declare(ground);
        return put_spot(
            &mut walk.spots,
            Spot::Port(port.direction, &port.ident, own),
        );
    }
    declared(ground, walk, &port.ident)?;
    Ok(())
}
