//! The statements of a module that are live for one of its leaves: each that is the last to reach the leaf under some
//! choice (FIRRTL spec, "Last Connect Semantics").

ghost use Rattle.std.specs.Prelude.{◌≡◌, ℕ, IfOk};
ghost use Rattle.fir_leaf.specs.declared.statement.LeafStmt.TheVariants as code;
ghost use Rattle.fir_leaf.specs.working.NodeBlocks.{block_in, statement_in};
ghost use Rattle.fir_meaning.specs.working.Choices.{lives_all};
ghost use Rattle.fir_flatten.specs.working.LiveSites.{AreSitesOf, ListsBlock, ListsStatement};

use crate::index_places::{earlier, first_index, first_picking};
use fir_ast::Place;
use fir_base::MemoryOut;
use fir_driven::{is_picked, reached_leaves};
use fir_leaf::{Drive, LeafStmt, LeafWhen, Node};
use std::alloc::Global;

/// A statement that is live for a leaf.
#[derive(Clone, Copy)]
pub struct LiveSite {
    /// Where it stands.
    pub place: Place,
    /// Where the first of the indices stands by which it names the leaf, or what it gives to it.
    pub index: Option<Place>,
}

/// A leaf that is asked for: its number, and how many whens stand round its declaration.
#[derive(Clone, Copy)]
struct Sought {
    leaf: usize,
    depth: usize,
}

/// Those for the leaf of that number, which is declared within so many whens, in a module with these nodes and
/// statements, the last of the text first.
pub fn live_sites(
    alloc: Global,
    nodes: &[Node],
    body: &[LeafStmt],
    leaf: usize,
    depth: usize,
) -> Result<Vec<LiveSite>, MemoryOut>
    ensures { IfOk result (λ sites. AreSitesOf (lives_all depth leaf (block_in nodes.now body.now) 0) sites.items) }
{
    let mut sites = Vec::new(alloc);
    list_block(body, alloc, nodes, Sought { leaf, depth }, 0, &mut sites)?;
    Ok(sites)
}

/// Appends those of a block within so many whens, from its end; says whether it covers the leaf, so that nothing before
/// it is live.
#[cycle(live)]
fn list_block(
    body: &[LeafStmt],
    alloc: Global,
    nodes: &[Node],
    sought: Sought,
    depth: usize,
    sites: &mut Vec<LiveSite>,
) -> Result<bool, MemoryOut>
    ensures { IfOk result (λ covered. ListsBlock sought (block_in nodes.now body.now) depth covered sites.old.items sites.new.items) }
{
    for index in (0..body.len()).rev() {
        let statement = &body[index];
        if list_statement(statement, alloc, nodes, sought, depth, sites)? {
            return Ok(true);
        }
    }
    Ok(false)
}

/// The same of a statement.
#[cycle(live)]
fn list_statement(
    statement: &LeafStmt,
    alloc: Global,
    nodes: &[Node],
    sought: Sought,
    depth: usize,
    sites: &mut Vec<LiveSite>,
) -> Result<bool, MemoryOut>
    ensures { IfOk result (λ covered. ListsStatement sought (statement_in nodes.now statement.now) depth covered sites.old.items sites.new.items) }
{
    match statement {
        LeafStmt::Drive(drive) => list_drive(alloc, nodes, sought, drive, sites),
        LeafStmt::When(when) => list_when(when, alloc, nodes, sought, depth, sites),
        LeafStmt::Instance(_) => Ok(false),
    }
}

/// The same of a when. The blocks of one that stands round the leaf's declaration are one behind the other for it.
#[cycle(live)]
fn list_when(
    when: &LeafWhen,
    alloc: Global,
    nodes: &[Node],
    sought: Sought,
    depth: usize,
    sites: &mut Vec<LiveSite>,
) -> Result<bool, MemoryOut>
    ensures { IfOk result (λ covered. ListsStatement sought (statement_in nodes.now (code.When when.now)) depth covered sites.old.items sites.new.items) }
{
    let inner = depth.checked_add(1).ok_or(MemoryOut)?;
    let second = list_block(&when.else_block, alloc, nodes, sought, inner, sites)?;
    if depth < sought.depth {
        if second {
            return Ok(true);
        }
        return list_block(&when.then_block, alloc, nodes, sought, inner, sites);
    }
    let first = list_block(&when.then_block, alloc, nodes, sought, inner, sites)?;
    Ok(first && second)
}

/// The same of a statement that drives leaves.
fn list_drive(
    alloc: Global,
    nodes: &[Node],
    sought: Sought,
    drive: &Drive,
    sites: &mut Vec<LiveSite>,
) -> Result<bool, MemoryOut>
    ensures { (depth : ℕ) → IfOk result (λ covered. ListsStatement sought (statement_in nodes.now (code.Drive drive.now)) depth covered sites.old.items sites.new.items) }
{
    let reached = reached_leaves(alloc, nodes, drive.leaf, drive.picks)?;
    if !reached.contains(&sought.leaf) {
        return Ok(false);
    }
    let through = first_index(nodes, drive.picks);
    let given = first_picking(nodes, drive.given);
    sites.push(LiveSite {
        place: drive.place,
        index: earlier(through, given),
    })?;
    Ok(!is_picked(nodes, drive.picks))
}
