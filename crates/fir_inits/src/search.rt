//! A search by breadth from inits to what makes one no constant, without recursion. Leaves alone count for the length
//! of a walk.

ghost use Rattle.std.specs.Prelude.{◌≡◌, ◌<◌, IfOk, None, OnOk, Some, length};
ghost use Rattle.fir_net.specs.working.Dependence.{IsOf};
ghost use Rattle.fir_net.specs.working.IsNet.{IsNet};
ghost use Rattle.fir_net.specs.working.IsWritable.{is_input_or_state};
ghost use Rattle.fir_inits.specs.working.AsyncInits.{HasInit};
ghost use Rattle.fir_inits.specs.working.Searched.{ends, AreMet, HasEnd, IsIdle, Knows};
ghost use Rattle.fir_inits.specs.working.Steps.{Finds, Meets, Opens, Takes};
ghost use Rattle.fir_inits.specs.working.Walks.{with_leaf, IsInitWalk};

use crate::registers::AsyncRegister;
use fir_ast::{LeafId, Place};
use fir_base::MemoryOut;
use fir_loop::{leaf_of, read_at};
use fir_net::{FlatNet, Leaf, Read, Role};
use fir_work::place;
use std::alloc::Global;
use std::mem;

/// How the search came to a leaf or a node.
#[derive(Clone, Copy)]
pub enum Origin {
    /// It is the init of this register.
    Init(LeafId),
    /// One that was met before it hangs on it: its number among those that were met.
    Met(usize),
}

/// A leaf or a node that the search has met.
#[derive(Clone, Copy)]
pub struct Met {
    pub read: Read,
    pub origin: Origin,
}

/// How far the search has come.
#[derive(Drop)]
pub struct Search {
    /// Whether the leaf or node at that place was met.
    marks: Vec<bool>,
    /// Those that were met, in their order.
    met: Vec<Met>,
    /// Which of them are to be looked at and stand behind as many leaves as the last one.
    near: Vec<usize>,
    /// Which of them are to be looked at and stand behind one more.
    far: Vec<usize>,
}

impl Search {
    /// A search that has met nothing yet.
    pub fn new(alloc: Global, net: &FlatNet) -> Result<Search, MemoryOut>
        ensures { IfOk result (IsIdle net.now) }
    {
        let size = net.leaves.as_slice().len() + net.nodes.as_slice().len();
        Ok(Search {
            marks: vec![in alloc; false; size]?,
            met: Vec::new(alloc),
            near: Vec::new(alloc),
            far: Vec::new(alloc),
        })
    }

    /// Looks from the init of the register on for an input or a leaf that shows state. Whether there is one, which
    /// then is the last that was met.
    pub fn finds(&mut self, net: &FlatNet, register: AsyncRegister) -> Result<bool, MemoryOut>
        requires whole { IsNet net.now }
        requires idle { IsIdle net.now self.old }
        requires init { HasInit net.now register.leaf register.init }
        ensures { IfOk result (Finds net.now self.old self.new register.init) }
    {
        if self.meet(net, &register.init, Origin::Init(register.leaf))? {
            return Ok(true);
        }
        while let Some(number) = self.next() {
            if self.open(net, number)? {
                return Ok(true);
            }
        }
        Ok(false)
    }

    /// The next to be looked at.
    fn next(&mut self) -> Option<usize>
        ensures { Takes self.old self.new result }
    {
        if self.near.is_empty() {
            mem::swap(&mut self.near, &mut self.far);
        }
        self.near.pop()
    }

    /// Meets all that the one of that number hangs on, up to the first at which the search ends. Whether there is one.
    fn open(&mut self, net: &FlatNet, number: usize) -> Result<bool, MemoryOut>
        requires whole { IsNet net.now }
        requires knows { Knows net.now (Some number) self.old }
        requires within { number < length self.old.met.items }
        ensures { IfOk result (Opens net.now self.old self.new) }
    {
        let read = self.met[number].read;
        let mut place = 0;
        while let Some(target) = read_at(net, &read, place) {
            if self.meet(net, &target, Origin::Met(number))? {
                return Ok(true);
            }
            place += 1;
        }
        Ok(false)
    }

    /// Takes a leaf or a node, if it is new, among those that were met, and if the search does not end there among
    /// those to be looked at, a leaf later than a node. Whether the search ends there.
    fn meet(&mut self, net: &FlatNet, read: &Read, origin: Origin) -> Result<bool, MemoryOut>
        requires there { IsOf net.now read.now }
        requires met { AreMet net.now self.old.marks.items self.old.met.items }
        ensures { IfOk result (Meets net.now self.old self.new read.now origin) }
    {
        let place = place(net, *read);
        if self.marks[place] {
            return Ok(false);
        }
        self.marks[place] = true;
        let number = self.met.len();
        self.met.push(Met {
            read: *read,
            origin,
        })?;
        if is_end(net, read) {
            return Ok(true);
        }
        match read {
            Read::Leaf(_) => self.far.push(number)?,
            Read::Node(_) => self.near.push(number)?,
        }
        Ok(false)
    }

    /// The place of the register whose init led to the last that was met, and the leaves on the way to that one, with
    /// it itself.
    pub fn walk(&self, alloc: Global, net: &FlatNet) -> Result<(Place, Vec<LeafId>), MemoryOut>
        requires { HasEnd net.now self.now }
        ensures { IfOk result (λ r. IsInitWalk net.now r.0 r.1.items) }
    {
        let mut walk = Vec::new(alloc);
        let mut number = self.met.len() - 1;
        'way: loop {
            let met = &self.met[number];
            push_leaf(&mut walk, &met.read)?;
            match &met.origin {
                Origin::Met(before) => number = *before,
                Origin::Init(register) => {
                    walk.reverse();
                    return Ok((leaf_of(net, *register).place, walk));
                }
            }
        }
    }
}

/// Adds what is a leaf.
fn push_leaf(walk: &mut Vec<LeafId>, read: &Read) -> Result<(), MemoryOut>
    ensures { OnOk result (walk.new.items ≡ with_leaf walk.old.items read.now) }
{
    if let Read::Leaf(leaf) = read {
        walk.push(*leaf)?;
    }
    Ok(())
}

/// Whether it is an input or a leaf that shows state.
fn is_end(net: &FlatNet, read: &Read) -> bool
    ensures { result ≡ ends net.now read.now }
{
    match read {
        Read::Leaf(leaf) => net
            .leaves
            .as_slice()
            .get(leaf.number())
            .is_some_and(is_input_or_state),
        Read::Node(_) => false,
    }
}

fn is_input_or_state(leaf: &Leaf) -> bool
    ensures { result ≡ is_input_or_state leaf.now.role }
{
    matches!(
        leaf.role,
        Role::Input | Role::Clock | Role::Register(_) | Role::Reading(_) | Role::Pipe(_)
    )
}
