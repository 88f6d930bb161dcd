//! The names in a module: in its ports, and then in its statements.

ghost use Rattle.std.specs.Prelude.{◌≡◌, List, IfOk, map};
ghost use Rattle.fir_ast.specs.Statements.{PlacedName};
ghost use Rattle.fir_ast.specs.working.Views.{module_of, port_of};
ghost use Rattle.fir_meaning.specs.Visibility.{Before, at_head, behind_block, behind_ports};
ghost use Rattle.fir_meaning.specs.Mentions.{module_mentions, ports_mentions};
ghost use Rattle.fir_names.specs.working.Numbered.{HasNumbers};
ghost use Rattle.fir_resolve.specs.working.Scoped.{Passes, Walks};
ghost use Rattle.fir_names.specs.working.Judged.{JudgesModule};

use crate::numbers::Numbers;
use crate::scope::Scope;
use crate::statements::{in_block, in_typed};
use fir_ast::{FirFault, Module, Port};
use fir_base::{MemoryOut, Refused};
use fir_names::{Component, Names};
use std::alloc::Global;

/// The table of what a module declares, or its first fault of names.
pub fn in_module(
    alloc: Global,
    numbers: &Numbers,
    part: &Module,
) -> Result<Names, Refused<FirFault>>
    ensures { (modules : List PlacedName) → HasNumbers numbers.now modules → JudgesModule modules (module_of part.now) result }
{
    let mut scope = Scope::new(alloc);
    let mut noted = Vec::new(alloc);
    match in_parts(alloc, numbers, &mut scope, &mut noted, part)? {
        Some(fault) => Err(Refused::Fault(fault)),
        None => Ok(scope.into_names(noted)),
    }
}

/// The first fault of names in a module's ports, and then in its statements.
fn in_parts(
    alloc: Global,
    numbers: &Numbers,
    scope: &mut Scope,
    noted: &mut Vec<usize>,
    part: &Module,
) -> Result<Option<FirFault>, MemoryOut>
    ensures { IfOk result (λ f. (modules : List PlacedName) → HasNumbers numbers.now modules → Walks modules scope.old at_head → Passes modules scope.old scope.new (module_mentions modules (module_of part.now)) (behind_block (behind_ports at_head (module_of part.now).ports) (module_of part.now).body) f) }
{
    if let Some(fault) = in_ports(alloc, scope, &part.ports)? {
        return Ok(Some(fault));
    }
    in_block(&part.body, alloc, numbers, scope, noted)
}

/// The first fault of names in ports, which are declared as they are passed.
fn in_ports(alloc: Global, scope: &mut Scope, ports: &[Port]) -> Result<Option<FirFault>, MemoryOut>
    ensures { IfOk result (λ f. (modules : List PlacedName) (before : Before) → Walks modules scope.old before → Passes modules scope.old scope.new (ports_mentions before (map port_of ports.now)) (behind_ports before (map port_of ports.now)) f) }
{
    for port in ports {
        let component = Component::Port(port.direction);
        if let Some(fault) = in_typed(alloc, scope, &port.ident, component, &port.ty)? {
            return Ok(Some(fault));
        }
    }
    Ok(None)
}
