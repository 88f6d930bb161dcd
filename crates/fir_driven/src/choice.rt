//! The choice that is told of a leaf that is not covered: the first that leaves it undriven (FIRRTL spec,
//! "Initialization of Components"). One walk finds it: where the second block of a when may miss the leaf, the when
//! is 0, and its first block is not walked; else it is 1.

ghost use Rattle.std.specs.Prelude.{◌≡◌, ◌||◌, IfOk, ℕ, false};
ghost use Rattle.fir_meaning.specs.working.Choices.{covers_all};
ghost use Rattle.fir_meaning.specs.working.UndrivenChoices.{drives, drives_any};
ghost use Rattle.fir_meaning.specs.Outcomes.{is_same_miss, told_once};
ghost use Rattle.fir_leaf.specs.declared.statement.LeafStmt.TheVariants as code;
ghost use Rattle.fir_leaf.specs.working.NodeBlocks.{block_in, statement_in};
ghost use Rattle.fir_driven.specs.working.Missed.{missed_all};
ghost use Rattle.fir_driven.specs.working.MissWalks.{MissesBlock, MissesStatement};

use crate::reached::{is_picked, reached_leaves};
use fir_ast::Outcome;
use fir_base::MemoryOut;
use fir_leaf::{Drive, LeafStmt, LeafWhen, Node};
use std::alloc::Global;

/// A leaf that is asked for: its number, and how many whens stand round its declaration.
#[derive(Clone, Copy)]
struct Asked {
    leaf: usize,
    depth: usize,
}

/// What a walk of statements tells of the leaf: whether they cover it, and whether any of them may drive it.
#[derive(Clone, Copy)]
struct Told {
    covered: bool,
    drives: bool,
}

/// What is told of statements that drive other leaves.
const NOTHING: Told = Told {
    covered: false,
    drives: false,
};

/// The outcomes of the first choice that leaves the leaf undriven; of one that is covered they say nothing.
pub fn first_choice(
    alloc: Global,
    leaf: usize,
    depth: usize,
    nodes: &[Node],
    body: &[LeafStmt],
) -> Result<Vec<Outcome>, MemoryOut>
    ensures { IfOk result (λ os. covers_all depth leaf (block_in nodes.now body.now) 0 ≡ false → os.items ≡ told_once (missed_all depth leaf (block_in nodes.now body.now) 0)) }
{
    let mut outcomes = Vec::new(alloc);
    miss_block(body, alloc, nodes, Asked { leaf, depth }, 0, &mut outcomes)?;
    told_once(alloc, &outcomes)
}

/// The outcomes without each miss that equals the one before it: a statement through indices that
/// drives the leaf from both its sides is told once.
fn told_once(alloc: Global, outcomes: &[Outcome]) -> Result<Vec<Outcome>, MemoryOut>
    ensures { IfOk result (λ os. os.items ≡ told_once outcomes.now) }
{
    let mut told = Vec::new(alloc);
    let Some((first, rest)) = outcomes.split_first() else {
        return Ok(told);
    };
    told.push(*first)?;
    let mut before = *first;
    for outcome in rest {
        if !is_same_miss(before, *outcome) {
            told.push(*outcome)?;
        }
        before = *outcome;
    }
    Ok(told)
}

/// Whether both are the miss of one statement through indices.
fn is_same_miss(one: Outcome, other: Outcome) -> bool
    ensures { result ≡ is_same_miss one other }
{
    match (one, other) {
        (Outcome::Index(place, false), Outcome::Index(later, false)) => place == later,
        _ => false,
    }
}

/// Puts the outcomes of a block within so many whens behind others.
#[cycle(miss)]
fn miss_block(
    body: &[LeafStmt],
    alloc: Global,
    nodes: &[Node],
    asked: Asked,
    depth: usize,
    outcomes: &mut Vec<Outcome>,
) -> Result<Told, MemoryOut>
    ensures { IfOk result (λ told. MissesBlock asked (block_in nodes.now body.now) depth told outcomes.old.items outcomes.new.items) }
{
    let mut told = NOTHING;
    for statement in body {
        let next = miss(statement, alloc, nodes, asked, depth, outcomes)?;
        told = either(told, next);
    }
    Ok(told)
}

#[cycle(miss)]
fn miss(
    statement: &LeafStmt,
    alloc: Global,
    nodes: &[Node],
    asked: Asked,
    depth: usize,
    outcomes: &mut Vec<Outcome>,
) -> Result<Told, MemoryOut>
    ensures { IfOk result (λ told. MissesStatement asked (statement_in nodes.now statement.now) depth told outcomes.old.items outcomes.new.items) }
{
    match statement {
        LeafStmt::Drive(drive) => miss_drive(alloc, nodes, drive, asked, outcomes),
        LeafStmt::When(when) => miss_when(when, alloc, nodes, asked, depth, outcomes),
        LeafStmt::Instance(_) => Ok(NOTHING),
    }
}

/// A statement through indices covers no leaf, and its miss is told of each that it may drive.
fn miss_drive(
    alloc: Global,
    nodes: &[Node],
    drive: &Drive,
    asked: Asked,
    outcomes: &mut Vec<Outcome>,
) -> Result<Told, MemoryOut>
    ensures { (depth : ℕ) → IfOk result (λ told. MissesStatement asked (statement_in nodes.now (code.Drive drive.now)) depth told outcomes.old.items outcomes.new.items) }
{
    if !may_drive(alloc, nodes, drive, asked.leaf)? {
        return Ok(NOTHING);
    }
    if is_picked(nodes, drive.picks) {
        outcomes.push(Outcome::Index(drive.place, false))?;
        return Ok(Told {
            covered: false,
            drives: true,
        });
    }
    Ok(Told {
        covered: true,
        drives: true,
    })
}

#[cycle(miss)]
fn miss_when(
    when: &LeafWhen,
    alloc: Global,
    nodes: &[Node],
    asked: Asked,
    depth: usize,
    outcomes: &mut Vec<Outcome>,
) -> Result<Told, MemoryOut>
    ensures { IfOk result (λ told. MissesStatement asked (statement_in nodes.now (code.When when.now)) depth told outcomes.old.items outcomes.new.items) }
{
    let inner = depth.checked_add(1).ok_or(MemoryOut)?;
    if depth < asked.depth {
        let first = miss_block(&when.then_block, alloc, nodes, asked, inner, outcomes)?;
        let second = miss_block(&when.else_block, alloc, nodes, asked, inner, outcomes)?;
        return Ok(either(first, second));
    }
    let start = outcomes.len();
    outcomes.push(Outcome::When(when.place, false))?;
    let second = miss_block(&when.else_block, alloc, nodes, asked, inner, outcomes)?;
    if second.covered {
        outcomes.truncate(start);
        outcomes.push(Outcome::When(when.place, true))?;
        let first = miss_block(&when.then_block, alloc, nodes, asked, inner, outcomes)?;
        return Ok(Told {
            covered: first.covered,
            drives: true,
        });
    }
    let drives = drives_also(second.drives, &when.then_block, alloc, nodes, asked.leaf)?;
    if !drives {
        outcomes.truncate(start);
    }
    Ok(Told {
        covered: false,
        drives,
    })
}

/// Of two that follow each other.
fn either(one: Told, other: Told) -> Told
    ensures covered { result.covered ≡ (one.covered || other.covered) }
    ensures drives { result.drives ≡ (one.drives || other.drives) }
{
    Told {
        covered: one.covered || other.covered,
        drives: one.drives || other.drives,
    }
}

/// Whether some statement of a block may drive the leaf, where it is not known that another does.
fn drives_also(
    known: bool,
    body: &[LeafStmt],
    alloc: Global,
    nodes: &[Node],
    leaf: usize,
) -> Result<bool, MemoryOut>
    ensures { IfOk result (λ found. found ≡ (known || drives_any leaf (block_in nodes.now body.now))) }
{
    if known {
        return Ok(true);
    }
    drives_any(body, alloc, nodes, leaf)
}

/// Whether some statement of a block may drive the leaf.
#[cycle(drives)]
fn drives_any(
    body: &[LeafStmt],
    alloc: Global,
    nodes: &[Node],
    leaf: usize,
) -> Result<bool, MemoryOut>
    ensures { IfOk result (λ found. found ≡ drives_any leaf (block_in nodes.now body.now)) }
{
    for statement in body {
        if drives(statement, alloc, nodes, leaf)? {
            return Ok(true);
        }
    }
    Ok(false)
}

#[cycle(drives)]
fn drives(
    statement: &LeafStmt,
    alloc: Global,
    nodes: &[Node],
    leaf: usize,
) -> Result<bool, MemoryOut>
    ensures { IfOk result (λ found. found ≡ drives leaf (statement_in nodes.now statement.now)) }
{
    match statement {
        LeafStmt::Drive(drive) => may_drive(alloc, nodes, drive, leaf),
        LeafStmt::When(when) => drives_in_when(when, alloc, nodes, leaf),
        LeafStmt::Instance(_) => Ok(false),
    }
}

#[cycle(drives)]
fn drives_in_when(
    when: &LeafWhen,
    alloc: Global,
    nodes: &[Node],
    leaf: usize,
) -> Result<bool, MemoryOut>
    ensures { IfOk result (λ found. found ≡ drives leaf (statement_in nodes.now (code.When when.now))) }
{
    if drives_any(&when.then_block, alloc, nodes, leaf)? {
        return Ok(true);
    }
    drives_any(&when.else_block, alloc, nodes, leaf)
}

/// Whether the leaf is among those that the statement may drive.
fn may_drive(alloc: Global, nodes: &[Node], drive: &Drive, leaf: usize) -> Result<bool, MemoryOut>
    ensures { IfOk result (λ found. found ≡ drives leaf (statement_in nodes.now (code.Drive drive.now))) }
{
    let leaves = reached_leaves(alloc, nodes, drive.leaf, drive.picks)?;
    Ok(leaves.contains(&leaf))
}
