//! The roots of the leaves of a module: a leaf is given another as it is, and so on until a leaf whose value comes from
//! outside of the module (FIRRTL spec, "Clock Type", "Connects", "Nodes"). The root of each leaf is found once.

ghost use Rattle.std.specs.Prelude.{◌≡◌, ℕ, ◌<◌, IfOk, Some, length, map, slice_get, slice_set};
ghost use Rattle.std.specs.Bool.{Decides};
ghost use Rattle.fir_whens.specs.declared.net_role.NetRole.TheVariants.{Source};
ghost use Rattle.fir_memory_clocks.specs.declared.clock_roots.Mark.TheVariants.{Ends};
ghost use Rattle.fir_memory_clocks.specs.working.Marks.{AreMarks, AreSettled, IsMarked, IsOnWay, IsStep, IsWalk, KeepMarks, root_of};
ghost use Rattle.fir_memory_clocks.specs.working.RoleRoots.{AreRoots, HasRoot, given_leaf, leaf_read, next_at};

use fir_base::MemoryOut;
use fir_net::Read;
use fir_whens::NetRole;
use std::alloc::Global;

/// What is known of a leaf: nothing so far; that a walk has passed it, and that it has no root unless that walk is not
/// at its end; or its root.
#[derive(Clone, Copy)]
enum Mark {
    New,
    Passed,
    Ends(usize),
}

/// What a walk does at a leaf: it goes on to another; it is at its end, with this root; or without one.
#[derive(Clone, Copy)]
enum Step {
    On(usize),
    Root(usize),
    Nowhere,
}

/// A walk that has come to a root: how many leaves it has passed, and the root.
#[derive(Clone, Copy)]
struct Walk {
    steps: usize,
    root: usize,
}

/// The root of each leaf with one of these roles, in time in proportion to their number. A leaf has none where its
/// chain goes in a ring, or ends at what is given no leaf.
pub fn clock_roots(alloc: Global, roles: &[NetRole]) -> Result<Vec<Option<usize>>, MemoryOut>
    ensures { IfOk result (λ roots. AreRoots roles.now roots.items) }
{
    let mut marks = vec![in alloc; Mark::New; roles.len()]?;
    for leaf in 0..roles.len() {
        mark_from(roles, leaf, &mut marks);
    }
    roots_of(alloc, &marks)
}

/// Marks a leaf, and those at which the walk from it passes.
fn mark_from(roles: &[NetRole], leaf: usize, marks: &mut [Mark])
    requires { AreSettled roles.now marks.old }
    ensures settled { AreSettled roles.now marks.new }
    ensures keeps { KeepMarks marks.old marks.new }
    ensures marked { leaf < length roles.now → IsMarked marks.new leaf }
{
    let Some(walk) = walk_from(roles, leaf, marks) else {
        return;
    };
    settle(roles, leaf, walk, marks);
}

/// The walk from a leaf to its root, if it has one. It marks the leaves that it passes.
fn walk_from(roles: &[NetRole], leaf: usize, marks: &mut [Mark]) -> Option<Walk>
    requires { AreSettled roles.now marks.old }
    ensures walk { IsWalk roles.now leaf marks.new result }
    ensures keeps { KeepMarks marks.old marks.new }
    ensures marked { leaf < length roles.now → IsMarked marks.new leaf }
{
    let mut at = leaf;
    // A walk of as many steps as there are leaves goes in a ring.
    for steps in 0..roles.len() {
        match visit(roles, at, marks) {
            Step::On(next) => at = next,
            Step::Root(root) => return Some(Walk { steps, root }),
            Step::Nowhere => return None,
        }
    }
    None
}

/// What the walk does at a leaf, which it marks.
fn visit(roles: &[NetRole], leaf: usize, marks: &mut [Mark]) -> Step
    ensures { (from steps : ℕ) → AreMarks roles.now (IsOnWay roles.now from 0 steps) marks.old → IsStep roles.now (IsOnWay roles.now from 0 steps) leaf marks.old marks.new result }
{
    let Some(mark) = marks.get(leaf) else {
        return Step::Nowhere;
    };
    match *mark {
        Mark::New => visit_new(roles, leaf, marks),
        Mark::Passed => Step::Nowhere,
        Mark::Ends(root) => Step::Root(root),
    }
}

/// The same at a leaf of which nothing is known.
fn visit_new(roles: &[NetRole], leaf: usize, marks: &mut [Mark]) -> Step
    requires { leaf < length marks.old }
    ensures { (from steps : ℕ) → AreMarks roles.now (IsOnWay roles.now from 0 steps) marks.old → IsStep roles.now (IsOnWay roles.now from 0 steps) leaf marks.old marks.new result }
{
    if is_outside(roles, leaf) {
        marks[leaf] = Mark::Ends(leaf);
        return Step::Root(leaf);
    }
    marks[leaf] = Mark::Passed;
    match next_at(roles, leaf) {
        Some(next) => Step::On(next),
        None => Step::Nowhere,
    }
}

/// Marks the leaves that a walk from a leaf has passed with its root.
fn settle(roles: &[NetRole], leaf: usize, walk: Walk, marks: &mut [Mark])
    requires root { HasRoot roles.now leaf walk.root }
    requires passed { AreMarks roles.now (IsOnWay roles.now leaf 0 walk.steps) marks.old }
    ensures settled { AreSettled roles.now marks.new }
    ensures keeps { KeepMarks marks.old marks.new }
{
    let mut at = leaf;
    for _step in 0..walk.steps {
        put_root(at, walk.root, marks);
        match next_at(roles, at) {
            Some(next) => at = next,
            None => return,
        }
    }
}

/// Marks a leaf that is there with its root.
fn put_root(leaf: usize, root: usize, marks: &mut [Mark])
    ensures { marks.new ≡ slice_set marks.old leaf (Ends root) }
{
    if leaf < marks.len() {
        marks[leaf] = Mark::Ends(root);
    }
}

/// The roots that leaves are marked with.
fn roots_of(alloc: Global, marks: &[Mark]) -> Result<Vec<Option<usize>>, MemoryOut>
    ensures { IfOk result (λ roots. roots.items ≡ map root_of marks.now) }
{
    let mut roots = Vec::new(alloc);
    for mark in marks {
        roots.push(root_of(*mark))?;
    }
    Ok(roots)
}

fn root_of(mark: Mark) -> Option<usize>
    ensures { result ≡ root_of mark }
{
    match mark {
        Mark::Ends(root) => Some(root),
        _ => None,
    }
}

/// Whether the value of a leaf comes from outside.
fn is_outside(roles: &[NetRole], leaf: usize) -> bool
    ensures { Decides result (slice_get roles.now leaf ≡ Some Source) }
{
    matches!(roles.get(leaf), Some(NetRole::Source))
}

/// The leaf that is given to a leaf as it is.
fn next_at(roles: &[NetRole], leaf: usize) -> Option<usize>
    ensures { result ≡ next_at roles.now leaf }
{
    match roles.get(leaf) {
        Some(role) => given_leaf(*role),
        None => None,
    }
}

/// The leaf that a role gives as it is.
fn given_leaf(role: NetRole) -> Option<usize>
    ensures { result ≡ given_leaf role }
{
    match role {
        NetRole::Driven(bound) | NetRole::Computed(bound) => leaf_read(bound.read),
        _ => None,
    }
}

fn leaf_read(read: Read) -> Option<usize>
    ensures { result ≡ leaf_read read }
{
    match read {
        Read::Leaf(leaf) => Some(leaf.number()),
        Read::Node(_) => None,
    }
}
