//! The number of the first leaf of each declaration, where all elements of a vector have the numbers of one.
//! The ports of all modules are numbered first, in the order of the text, and then what the bodies declare; an
//! instance has the numbers of its module's ports, so all instances of a module share them.

ghost use Rattle.std.specs.Prelude.{◌≡◌, IfOk, map};
ghost use Rattle.fir_ast.specs.working.Views.{circuit_of};
ghost use Rattle.fir_meaning.specs.working.NameGroups.{HasNames};
ghost use Rattle.fir_type_table.specs.working.Saturated.{saturated};
ghost use Rattle.fir_type_table.specs.working.Tables.{types_of};
ghost use Rattle.fir_types.specs.working.FirstLeaves.{HasStarts, IsWalked, component_at, first_by, next_by};
ghost use Rattle.fir_types.specs.working.LeafNumbers.{first_leaves, numbers_taken};
ghost use Rattle.fir_types.specs.working.Seen.{seen};
ghost use Rattle.fir_types.specs.working.TypedModules.{declared_types, found_types};
ghost use Rattle.fir_types.specs.working.Walked.{HoldsBundles};

use crate::found::{Found, shared_leaves};
use fir_ast::LeafId;
use fir_base::MemoryOut;
use fir_names::{Component, Named, Names};
use fir_type_table::{TypeId, TypeTable};
use std::alloc::Global;

/// The next number of a port, and the next of what a body declares; each at most 2^64 - 1.
#[derive(Clone, Copy)]
struct NextLeaf {
    port: u64,
    body: u64,
}

impl NextLeaf {
    /// The first leaf of a declaration, where the ports of each module start at these numbers.
    fn first(&self, starts: &[u64], component: Option<Component>) -> u64
        ensures { result ≡ first_by starts.now self.now component }
    {
        match component {
            Some(Component::Port(_)) => self.port,
            Some(Component::Instance(number)) => match starts.get(number) {
                Some(start) => *start,
                None => 0,
            },
            _ => self.body,
        }
    }

    /// Passes a declaration that takes so many numbers; an instance takes none.
    fn pass(&mut self, component: Option<Component>, taken: u64)
        ensures { self.new ≡ next_by self.old component taken }
    {
        match component {
            Some(Component::Port(_)) => self.port = self.port.saturating_add(taken),
            Some(Component::Instance(_)) => {}
            _ => self.body = self.body.saturating_add(taken),
        }
    }
}

/// The first leaf of each declaration, by modules and in the order of the text; at most 2^64 - 1. The table
/// has the bundle of each module's ports, and these types of what each module declares.
pub fn first_leaves(
    alloc: Global,
    named: &Named,
    table: &TypeTable,
    bundles: &[TypeId],
    declared: &[Vec<Option<Found>>],
) -> Result<Vec<Vec<LeafId>>, MemoryOut>
    requires names { HasNames (circuit_of named.now) }
    requires holds { HoldsBundles (types_of table.now) bundles.now (circuit_of named.now).modules }
    requires types { found_types (types_of table.now) declared.now ≡ declared_types (circuit_of named.now) }
    ensures { IfOk result (λ leaves. map (λ v. v.items) leaves.items ≡ map (map saturated) (first_leaves (circuit_of named.now))) }
{
    let (starts, body) = port_starts(alloc, table, bundles)?;
    let mut next = NextLeaf { port: 0, body };
    let mut leaves = Vec::new(alloc);
    for (number, types) in declared.iter().enumerate() {
        let Some(names) = named.names(number) else {
            unreachable!()
        };
        leaves.push(in_module(alloc, table, names, &starts, types, &mut next)?)?;
    }
    Ok(leaves)
}

/// The number of the first leaf of each module's ports, and the first number behind them all.
fn port_starts(
    alloc: Global,
    table: &TypeTable,
    bundles: &[TypeId],
) -> Result<(Vec<u64>, u64), MemoryOut>
    ensures { IfOk result (λ r. HasStarts (types_of table.now) bundles.now r.0.items r.1) }
{
    let mut starts = Vec::new(alloc);
    let mut next = 0u64;
    for id in bundles {
        starts.push(next)?;
        next = next.saturating_add(table.shared_leaves(*id));
    }
    Ok((starts, next))
}

/// The first leaves of what a module declares, all of which is passed.
fn in_module(
    alloc: Global,
    table: &TypeTable,
    names: &Names,
    starts: &[u64],
    declared: &[Option<Found>],
    next: &mut NextLeaf,
) -> Result<Vec<LeafId>, MemoryOut>
    ensures { IfOk result (λ leaves. IsWalked (component_at names.now) (types_of table.now) starts.now declared.now next.old next.new leaves.items) }
{
    let mut leaves = Vec::new(alloc);
    for (position, found) in declared.iter().enumerate() {
        let component = component_at(names, position);
        let first = next.first(starts, component);
        leaves.push(LeafId::new(first as usize))?;
        next.pass(component, numbers_taken(table, *found));
    }
    Ok(leaves)
}

/// What the declaration is before which so many stand.
fn component_at(names: &Names, position: usize) -> Option<Component>
    ensures { result ≡ component_at names.now position }
{
    let declaration = names.at(position)?;
    Some(declaration.component)
}

/// How many numbers a declaration takes: where it has no type, none; at most 2^64 - 1.
fn numbers_taken(table: &TypeTable, found: Option<Found>) -> u64
    ensures { result ≡ saturated (numbers_taken (seen (types_of table.now) found)) }
{
    match found {
        Some(found) => shared_leaves(table, found),
        None => 0,
    }
}
