//! Leaves that read what stands for what they read.

ghost use Rattle.std.specs.Prelude.{◌≡◌, map, option_map};
ghost use Rattle.fir_fold.specs.working.Standing.{array_read, leaf_read, reset_read, role_read, stands_for};

use crate::stands::Stands;
use fir_base::Seq;
use fir_net::{ArrayRead, Leaf, Pipe, Read, Register, Reset, Role};

/// Leaves that read what stands for what they read.
pub fn leaves_anew(leaves: Seq<Leaf>, stands: &Stands) -> Seq<Leaf>
    ensures { result ≡ map (leaf_read (stands_for stands.now)) leaves }
{
    let mut leaves = leaves.into_vec();
    read_leaves_anew(&mut leaves, stands);
    Seq::from_vec(leaves)
}

fn read_leaves_anew(leaves: &mut [Leaf], stands: &Stands)
    ensures { leaves.new ≡ map (leaf_read (stands_for stands.now)) leaves.old }
{
    for leaf in leaves.iter_mut() {
        read_leaf_anew(leaf, stands);
    }
}

fn read_leaf_anew(leaf: &mut Leaf, stands: &Stands)
    ensures { leaf.new ≡ leaf_read (stands_for stands.now) leaf.old }
{
    leaf.role = role_anew(leaf.role, stands);
}

fn role_anew(role: Role, stands: &Stands) -> Role
    ensures { result ≡ role_read (stands_for stands.now) role }
{
    match role {
        Role::Input | Role::Clock | Role::ClockOutput(_) | Role::ClockWire(_) => role,
        Role::Output(read) => Role::Output(stands.read(read)),
        Role::Wire(read) => Role::Wire(stands.read(read)),
        Role::Register(register) => Role::Register(Register {
            clock: register.clock,
            reset: reset_anew(register.reset, stands),
            next: next_anew(register.next, stands),
        }),
        Role::Reading(reading) => Role::Reading(array_read_anew(reading, stands)),
        Role::Pipe(pipe) => Role::Pipe(Pipe {
            clock: pipe.clock,
            read: array_read_anew(pipe.read, stands),
            is_new: pipe.is_new,
        }),
    }
}

fn reset_anew(reset: Option<Reset>, stands: &Stands) -> Option<Reset>
    ensures { result ≡ option_map (reset_read (stands_for stands.now)) reset }
{
    match reset {
        Some(reset) => Some(Reset {
            kind: reset.kind,
            condition: stands.read(reset.condition),
            init: stands.read(reset.init),
        }),
        None => None,
    }
}

fn next_anew(next: Option<Read>, stands: &Stands) -> Option<Read>
    ensures { result ≡ option_map (stands_for stands.now) next }
{
    match next {
        Some(next) => Some(stands.read(next)),
        None => None,
    }
}

fn array_read_anew(reading: ArrayRead, stands: &Stands) -> ArrayRead
    ensures { result ≡ array_read (stands_for stands.now) reading }
{
    ArrayRead {
        array: reading.array,
        address: stands.read(reading.address),
        enable: stands.read(reading.enable),
    }
}
