//! The nodes of a net that its leaves need, in a list of their own.

ghost use Rattle.std.specs.Prelude.{◌≡◌, IfOk, OnOk, length};
ghost use Rattle.fir_bits.specs.Values.{IsBitVector};
ghost use Rattle.fir_merge.specs.working.NodeTerms.{ReadBefore};
ghost use Rattle.fir_flatten.specs.working.KeptNodes.{AreNeeded, HasForm, Keeps, marked, marked_all, moved, moved_all, moved_node, reset_reads, role_reads};

use fir_ast::NodeId;
use fir_base::MemoryOut;
use fir_bits::Num;
use fir_net::{Node, Read, Reads};
use fir_whens::{NetReset, NetRole};
use std::alloc::Global;

/// Nodes, each behind those that it reads, and by the numbers of the net's nodes their places among these.
#[derive(Drop)]
pub struct KeptNodes {
    pub nodes: Vec<Node>,
    /// Of a node that no leaf needs the place is of no meaning.
    pub places: Vec<usize>,
}

/// Keeps the nodes that the roles need, in their order. Where each node reads nodes before it, each kept one does so
/// too, and stands for the same as it did.
pub fn keep_nodes(
    alloc: Global,
    nodes: Vec<Node>,
    roles: &[NetRole],
) -> Result<KeptNodes, MemoryOut>
    ensures { IfOk result (λ kept. ReadBefore 0 nodes.items → Keeps nodes.items roles.now kept) }
{
    let needed = needed_nodes(alloc, &nodes, roles)?;
    let mut places = Vec::with_capacity(alloc, nodes.len())?;
    let mut nodes = nodes;
    let mut count = 0;
    for number in 0..nodes.len() {
        let place = count;
        if needed[number] {
            has_form(&nodes[number]);
            renumber(alloc, &mut nodes[number], &places)?;
            nodes.swap(place, number);
            count += 1;
        }
        places.push(place)?;
    }
    nodes.truncate(count);
    Ok(KeptNodes { nodes, places })
}

/// Where the value of a read is among kept nodes with these places.
pub fn moved(places: &[usize], read: Read) -> Read
    ensures { result ≡ moved places.now read }
{
    match read {
        Read::Leaf(leaf) => Read::Leaf(leaf),
        Read::Node(node) => match places.get(node.number()) {
            Some(place) => Read::Node(NodeId::new(*place)),
            None => Read::Node(node),
        },
    }
}

/// Lets a node read kept nodes with these places.
fn renumber(alloc: Global, node: &mut Node, places: &[usize]) -> Result<(), MemoryOut>
    ensures { OnOk result (node.new ≡ moved_node places.now node.old) }
{
    match node {
        Node::Literal(_) => (),
        Node::Operation(operation) => {
            operation.reads = renumbered(alloc, operation.reads.as_slice(), places)?;
        }
        Node::Mux(mux) => {
            let [condition, first, second] = mux.reads;
            let reads = [
                moved(places, condition),
                moved(places, first),
                moved(places, second),
            ];
            mux.reads = reads;
        }
    }
    Ok(())
}

/// Reads over kept nodes with these places.
fn renumbered(alloc: Global, reads: &[Read], places: &[usize]) -> Result<Reads, MemoryOut>
    ensures { IfOk result (λ all. all ≡ moved_all places.now reads.now) }
{
    let mut all = Reads::new(alloc);
    for read in reads {
        all.push(moved(places, *read))?;
    }
    Ok(all)
}

/// A literal is a value of at most 128 bits, and a mux has three reads.
fn has_form(node: &Node)
    ensures { HasForm node.now }
{
    match node {
        Node::Literal(value) => is_vector(value),
        Node::Operation(_) => (),
        Node::Mux(mux) => {
            let [_condition, _first, _second] = mux.reads;
        }
    }
}

/// A value is of at most 128 bits, and below two to the power of its width.
fn is_vector(value: &Num)
    ensures { IsBitVector value.now.value }
{
    let _width = value.value.width();
}

/// Which nodes the roles need: those that they read, and those that needed nodes read.
fn needed_nodes(alloc: Global, nodes: &[Node], roles: &[NetRole]) -> Result<Vec<bool>, MemoryOut>
    ensures needed { IfOk result (λ needed. ReadBefore 0 nodes.now → AreNeeded nodes.now roles.now needed.items) }
    ensures count { IfOk result (λ needed. length needed.items ≡ length nodes.now) }
{
    let mut needed = vec![in alloc; false; nodes.len()]?;
    for role in roles {
        mark_role(role, &mut needed);
    }
    for number in (0..nodes.len()).rev() {
        if needed[number] {
            let node = &nodes[number];
            has_form(node);
            mark_all(node.support(), &mut needed);
        }
    }
    Ok(needed)
}

/// Marks the nodes that a role reads.
fn mark_role(role: &NetRole, needed: &mut [bool])
    ensures { needed.new ≡ marked_all (role_reads role.now) needed.old }
{
    match role {
        NetRole::Source | NetRole::Reading(_) | NetRole::Pipe(_, _, _) => (),
        NetRole::Driven(bound) | NetRole::Computed(bound) => mark(bound.read, needed),
        NetRole::Register(_, reset, next) => {
            mark_reset(reset, needed);
            mark(next.read, needed);
        }
    }
}

/// Marks the nodes that a reset reads.
fn mark_reset(reset: &Option<NetReset>, needed: &mut [bool])
    ensures { needed.new ≡ marked_all (reset_reads reset.now) needed.old }
{
    if let Some(reset) = reset {
        mark(reset.condition.read, needed);
        mark(reset.init.read, needed);
    }
}

/// Marks the nodes that are read.
fn mark_all(reads: &[Read], needed: &mut [bool])
    ensures { needed.new ≡ marked_all reads.now needed.old }
{
    for read in reads {
        mark(*read, needed);
    }
}

/// Marks a node that is read.
fn mark(read: Read, needed: &mut [bool])
    ensures { needed.new ≡ marked read needed.old }
{
    if let Read::Node(node) = read {
        if node.number() < needed.len() {
            needed[node.number()] = true;
        }
    }
}
