//! The inits that are constants.

ghost use Rattle.std.specs.Prelude.{◌≡◌, IfOk, map};
ghost use Rattle.std.specs.List.{list_any};
ghost use Rattle.std.specs.Option.{is_some};
ghost use Rattle.fir_net.specs.working.IsNet.{IsLeaf, IsNet};
ghost use Rattle.fir_net.specs.working.IsOrder.{IsOrder};
ghost use Rattle.fir_work.specs.working.Held.{IsHeld};
ghost use Rattle.fir_inits.specs.working.AsyncInits.{async_init};
ghost use Rattle.fir_inits.specs.working.Constants.{init_number};
ghost use Rattle.fir_inits.specs.working.InitValues.{AreInitValues, init_at};

use crate::constants::{constants, fitted};
use crate::registers::async_init;
use fir_ast::LeafId;
use fir_base::MemoryOut;
use fir_net::{FlatNet, Leaf, Read};
use std::alloc::Global;
use std::marker::Model;

/// For each leaf of a net what it shows while its asynchronous reset is 1, which contracts see as a list.
#[derive(Drop)]
pub struct InitValues {
    numbers: Vec<u128>,
}

impl Model for InitValues {
    ghost use Rattle.std.specs.Prelude.{List, ℕ};

    ghost Value = { List ℕ };

    ghost view = { λ v. v.numbers.items };
}

impl InitValues {
    /// The number for a leaf, and 0 where none stands for it.
    pub fn get(&self, leaf: LeafId) -> u128
        ensures { result ≡ init_at self.now leaf }
    {
        match self.numbers.get(leaf.number()) {
            Some(number) => *number,
            None => 0,
        }
    }
}

/// The values of the inits of a net with this order. It takes time in proportion to the net, and no memory where no
/// register has an asynchronous reset.
pub fn init_values(alloc: Global, net: &FlatNet, order: &[Read]) -> Result<InitValues, MemoryOut>
    requires { IsNet net.now }
    ensures { IfOk result (λ v. IsOrder net.now order.now → AreInitValues net.now v) }
{
    if !has_async_reset(net) {
        return Ok(InitValues {
            numbers: Vec::new(alloc),
        });
    }
    let numbers = constants(alloc, net, order)?;
    Ok(InitValues {
        numbers: inits_of(alloc, net, numbers.as_slice())?,
    })
}

fn has_async_reset(net: &FlatNet) -> bool
    ensures { result ≡ list_any (λ l. is_some (async_init l.role)) net.now.leaves }
{
    net.leaves
        .as_slice()
        .iter()
        .any(|leaf| async_init(leaf).is_some())
}

/// The init of each leaf, from the numbers of constants; 0 for one that has none.
fn inits_of(alloc: Global, net: &FlatNet, numbers: &[u128]) -> Result<Vec<u128>, MemoryOut>
    requires whole { IsNet net.now }
    requires held { IsHeld net.now numbers.now }
    ensures { IfOk result (λ v. v.items ≡ map (init_number net.now numbers.now) net.now.leaves) }
{
    let mut inits = Vec::new(alloc);
    for leaf in net.leaves.as_slice() {
        inits.push(init_of(net, leaf, numbers))?;
    }
    Ok(inits)
}

fn init_of(net: &FlatNet, leaf: &Leaf, numbers: &[u128]) -> u128
    requires whole { IsNet net.now }
    requires held { IsHeld net.now numbers.now }
    requires leaf { IsLeaf net.now.leaves net.now.nodes leaf.now }
    ensures { result ≡ init_number net.now numbers.now leaf.now }
{
    match async_init(leaf) {
        Some(init) => fitted(net, init, leaf.width, numbers),
        None => 0,
    }
}
