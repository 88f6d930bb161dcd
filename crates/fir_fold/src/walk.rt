//! The leaves and nodes of a net in their order, each of which is given what is read in its place.

ghost use Rattle.std.specs.Prelude.{◌≡◌, ◌≤◌, [], IfOk, OnOk, length};
ghost use Rattle.fir_bits.specs.Values.{IsBitVector};
ghost use Rattle.fir_net.specs.declared.reads.Read.TheVariants as read;
ghost use Rattle.fir_net.specs.working.IsNet.{AreNodes, IsNet};
ghost use Rattle.fir_net.specs.working.IsOrder.{IsOrder};
ghost use Rattle.fir_net.specs.working.Settled.{driver};
ghost use Rattle.fir_net.specs.working.Values.{at_width, number_of};
ghost use Rattle.fir_fold.specs.working.Walking.{AreNarrow, CanPass, IsWalked, Passes, Puts, PutsFor, ReadsFor, literal_at};

use crate::node_reads::read_anew;
use crate::stands::Stands;
use fir_ast::{LeafId, NodeId};
use fir_base::MemoryOut;
use fir_bits::{Num, NumTy};
use fir_fold_rules::{Replacement, simplified};
use fir_net::{FlatNet, Leaf, Node, Read, Role, share};
use fir_work::read_type;
use indexmap::IndexSet;
use std::alloc::Global;
use std::marker::Model;

/// What there is of a folded net.
#[derive(Drop)]
pub struct Walk {
    pub stands: Stands,
    /// Its nodes, each behind those that it reads.
    pub nodes: IndexSet<Node>,
    /// The entries of its order.
    pub entries: Vec<Read>,
}

impl Model for Walk {
    ghost use Rattle.fir_fold.specs.working.Walking.{Walking};

    ghost Value = { Walking };

    ghost view = { λ w. record { stands = w.stands; nodes = w.nodes.keys; entries = w.entries.items } };
}

/// The whole net, whose order this is.
pub fn walked(alloc: Global, net: &FlatNet, order: &[Read]) -> Result<Walk, MemoryOut>
    requires whole { IsNet net.now }
    requires ordered { IsOrder net.now order.now }
    ensures { IfOk result (IsWalked net.now order.now (length order.now)) }
{
    let mut walk = Walk::new(alloc, net)?;
    for vertex in order {
        walk.pass(alloc, net, *vertex)?;
    }
    Ok(walk)
}

impl Walk {
    /// Nothing is done.
    fn new(alloc: Global, net: &FlatNet) -> Result<Walk, MemoryOut>
        ensures leaves { IfOk result (λ w. length w.stands.leaves ≡ length net.now.leaves) }
        ensures stands { IfOk result (λ w. length w.stands.nodes ≡ length net.now.nodes) }
        ensures nodes { IfOk result (λ w. w.nodes ≡ []) }
        ensures entries { IfOk result (λ w. w.entries ≡ []) }
    {
        let stands = Stands::new(
            alloc,
            net.leaves.as_slice().len(),
            net.nodes.as_slice().len(),
        )?;
        Ok(Walk {
            stands,
            nodes: IndexSet::new(alloc),
            entries: Vec::new(alloc),
        })
    }

    /// Passes a leaf or a node, all behind what it reads.
    fn pass(&mut self, alloc: Global, net: &FlatNet, vertex: Read) -> Result<(), MemoryOut>
        requires nodes { AreNodes net.now.leaves [] self.old.nodes }
        requires narrow { AreNarrow net.now.leaves }
        requires vertex { CanPass net.now vertex self.old }
        ensures { OnOk result (Passes net.now vertex self.old self.new) }
    {
        match vertex {
            Read::Leaf(leaf) => self.pass_leaf(net, leaf),
            Read::Node(node) => self.pass_node(alloc, net, node),
        }
    }

    /// A leaf stays in the order, whatever is read in its place.
    fn pass_leaf(&mut self, net: &FlatNet, number: LeafId) -> Result<(), MemoryOut>
        requires narrow { AreNarrow net.now.leaves }
        requires leaf { CanPass net.now (read.Leaf number) self.old }
        ensures { OnOk result (Passes net.now (read.Leaf number) self.old self.new) }
    {
        let leaves = net.leaves.as_slice();
        let stands = self.read_for(leaves, number, &leaves[number.number()])?;
        self.stands.set_leaf(number, stands);
        self.entries.push(Read::Leaf(number))?;
        Ok(())
    }

    /// What is read in the place of a leaf: what drives it, where that is a literal or of the leaf's type, else the leaf.
    fn read_for(&mut self, leaves: &[Leaf], number: LeafId, leaf: &Leaf) -> Result<Read, MemoryOut>
        requires { leaf.now.width ≤ 128 }
        ensures { IfOk result (ReadsFor leaves.now number leaf.now self.old self.new) }
    {
        match driver(&leaf.role) {
            Some(driver) => {
                let ty = NumTy {
                    signed: leaf.signed,
                    width: leaf.width,
                };
                let driver = self.stands.read(driver);
                match self.literal(driver) {
                    Some(value) => self.put(Node::Literal(fitted(value, ty))),
                    None if read_type(leaves, self.nodes.as_slice(), &driver) == ty => Ok(driver),
                    None => Ok(Read::Leaf(number)),
                }
            }
            None => Ok(Read::Leaf(number)),
        }
    }

    /// The literal that is read.
    fn literal(&self, read: Read) -> Option<Num>
        ensures { result ≡ literal_at self.now.nodes read }
    {
        match read {
            Read::Node(node) => match self.nodes.as_slice().get(node.number()) {
                Some(Node::Literal(value)) => Some(*value),
                _ => None,
            },
            Read::Leaf(_) => None,
        }
    }

    /// A node reads what stands for its operands, and is simplified.
    fn pass_node(&mut self, alloc: Global, net: &FlatNet, number: NodeId) -> Result<(), MemoryOut>
        requires narrow { AreNarrow net.now.leaves }
        requires nodes { AreNodes net.now.leaves [] self.old.nodes }
        requires node { CanPass net.now (read.Node number) self.old }
        ensures { OnOk result (Passes net.now (read.Node number) self.old self.new) }
    {
        let node = &net.nodes.as_slice()[number.number()];
        let node = read_anew(alloc, node, &self.stands)?;
        let replacement = simplified(alloc, net.leaves.as_slice(), &self.nodes, node)?;
        let stands = self.put_for(replacement)?;
        self.stands.set_node(number, stands);
        Ok(())
    }

    /// What is read for a node that has this replacement.
    fn put_for(&mut self, replacement: Replacement) -> Result<Read, MemoryOut>
        ensures { IfOk result (PutsFor self.old self.new replacement) }
    {
        match replacement {
            Replacement::Read(read) => Ok(read),
            Replacement::Node(node) => self.put(node),
        }
    }

    /// Puts a node where no equal one is there, and into the order too.
    fn put(&mut self, node: Node) -> Result<Read, MemoryOut>
        ensures { IfOk result (Puts self.old self.new node) }
    {
        let count = self.nodes.len();
        let number = share(&mut self.nodes, node)?;
        if number.number() == count {
            self.entries.push(Read::Node(number))?;
        }
        Ok(Read::Node(number))
    }
}

/// What drives a leaf, unless it is an input or shows state.
fn driver(role: &Role) -> Option<Read>
    ensures { result ≡ driver role.now }
{
    match role {
        Role::Output(read) | Role::Wire(read) => Some(*read),
        _ => None,
    }
}

/// A value fitted to a type.
fn fitted(value: Num, ty: NumTy) -> Num
    requires { ty.width ≤ 128 }
    ensures value { result ≡ number_of ty (at_width value ty.width) }
    ensures vector { IsBitVector result.value }
{
    Num {
        signed: ty.signed,
        value: value.value.fit(value.signed, ty.width),
    }
}
