//! The names of ports, and of registers and pipes.

ghost use Rattle.std.specs.Prelude.{◌≡◌, [], IfOk, OnOk, length, not, ◌&&◌, nat_eq};
ghost use Rattle.std.specs.BTreeSet.{IsEmpty};
ghost use Rattle.fir_net.specs.working.IsNet.{IsNet, is_port};
ghost use Rattle.fir_net_names.specs.working.LeafNamed.{base_at, named_leaves, named_ports};
ghost use Rattle.fir_net_names.specs.working.NameSets.{HasNames};

use crate::free_name::take_name;
use crate::taken::Taken;
use fir_base::{MemoryOut, Name, Seq};
use fir_net::{FlatNet, Leaf, Role};
use std::alloc::Global;

/// The names of leaves, by their numbers, and what they leave to others.
#[derive(Drop)]
pub struct LeafNames {
    pub names: Seq<Option<Name>>,
    pub taken: Taken,
}

/// The names of the leaves of a net: first the ports that have bits take theirs, then the words of the state.
pub fn leaf_names(alloc: Global, net: &FlatNet) -> Result<LeafNames, MemoryOut>
    requires { IsNet net.now }
    ensures table { IfOk result (λ r. HasNames (base_at net.now) [] (named_leaves net.now) r.names r.taken.names) }
    ensures count { IfOk result (λ r. length r.names ≡ length net.now.leaves) }
{
    let mut taken = Taken::new(alloc);
    let mut names = port_names(alloc, &mut taken, net)?;
    name_words(alloc, &mut taken, net, &mut names)?;
    Ok(LeafNames {
        names: Seq::from_vec(names),
        taken,
    })
}

/// The names of the ports, and none for each other leaf.
fn port_names(
    alloc: Global,
    taken: &mut Taken,
    net: &FlatNet,
) -> Result<Vec<Option<Name>>, MemoryOut>
    requires { IsEmpty taken.old.names }
    ensures table { IfOk result (λ names. HasNames (base_at net.now) [] (named_ports 0 net.now.leaves) names.items taken.new.names) }
    ensures count { IfOk result (λ names. length names.items ≡ length net.now.leaves) }
{
    let leaves = net.leaves.as_slice();
    let mut names = Vec::new(alloc);
    for leaf in leaves {
        if is_named_port(leaf) {
            names.push(Some(take_name(alloc, taken, &leaf.path)?))?;
        } else {
            names.push(None)?;
        }
    }
    Ok(names)
}

/// The words of the state take their names behind the ports.
fn name_words(
    alloc: Global,
    taken: &mut Taken,
    net: &FlatNet,
    names: &mut Vec<Option<Name>>,
) -> Result<(), MemoryOut>
    requires whole { IsNet net.now }
    requires count { length names.old.items ≡ length net.now.leaves }
    requires ports { HasNames (base_at net.now) [] (named_ports 0 net.now.leaves) names.old.items taken.old.names }
    ensures table { OnOk result (HasNames (base_at net.now) [] (named_leaves net.now) names.new.items taken.new.names) }
    ensures count { OnOk result (length names.new.items ≡ length net.now.leaves) }
{
    let leaves = net.leaves.as_slice();
    let state = net.state.as_slice();
    for word in state {
        let number = word.number();
        let name = take_name(alloc, taken, &leaves[number].path)?;
        names[number] = Some(name);
    }
    Ok(())
}

/// Whether a leaf is a port that has bits.
fn is_named_port(leaf: &Leaf) -> bool
    ensures { result ≡ (is_port leaf.now.role && not (nat_eq leaf.now.width 0)) }
{
    match leaf.role {
        Role::Register(_) | Role::Reading(_) | Role::Pipe(_) | Role::Wire(_) | Role::ClockWire(_) =>
            false,
        _ => leaf.width != 0,
    }
}
