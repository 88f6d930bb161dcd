//! What the leaves and nodes of a net hang on, one by one.

ghost use Rattle.std.specs.Prelude.{◌≡◌, ◌+◌, ◌<◌, ◌^◌, [], ◌∷◌, OnSome, slice_get};
ghost use Rattle.fir_net.specs.working.Dependence.{reads_of, role_reads, reset_reads};

use fir_net::{ArrayRead, FlatNet, Read, Reset, ResetKind, Role};

/// What the leaf or node hangs on at that place, if it hangs on so much.
pub fn read_at(net: &FlatNet, vertex: &Read, place: usize) -> Option<Read>
    ensures read { result ≡ slice_get (reads_of net.now vertex.now) place }
    ensures room { OnSome result (place + 1 < 2 ^ 64) }
{
    match vertex {
        Read::Leaf(leaf) => match net.leaves.as_slice().get(leaf.number()) {
            Some(leaf) => role_read_at(&leaf.role, place),
            None => None,
        },
        Read::Node(node) => match net.nodes.as_slice().get(node.number()) {
            Some(node) => node.support().get(place).copied(),
            None => None,
        },
    }
}

fn role_read_at(role: &Role, place: usize) -> Option<Read>
    ensures read { result ≡ slice_get (role_reads role.now) place }
    ensures room { OnSome result (place + 1 < 2 ^ 64) }
{
    match role {
        Role::Output(read) | Role::Wire(read) => only_at(*read, place),
        Role::ClockOutput(Some(clock)) | Role::ClockWire(Some(clock)) => {
            only_at(Read::Leaf(*clock), place)
        }
        Role::Register(register) => reset_read_at(register.reset, place),
        Role::Reading(reading) => array_read_at(*reading, place),
        Role::Input
        | Role::Clock
        | Role::Pipe(_)
        | Role::ClockOutput(None)
        | Role::ClockWire(None) => None,
    }
}

fn reset_read_at(reset: Option<Reset>, place: usize) -> Option<Read>
    ensures read { result ≡ slice_get (reset_reads reset) place }
    ensures room { OnSome result (place + 1 < 2 ^ 64) }
{
    match reset {
        Some(reset) => match (reset.kind, place) {
            (ResetKind::Asynchronous, 0) => Some(reset.condition),
            (ResetKind::Asynchronous, 1) => Some(reset.init),
            _ => None,
        },
        None => None,
    }
}

fn array_read_at(reading: ArrayRead, place: usize) -> Option<Read>
    ensures read { result ≡ slice_get (reading.address ∷ reading.enable ∷ []) place }
    ensures room { OnSome result (place + 1 < 2 ^ 64) }
{
    match place {
        0 => Some(reading.address),
        1 => Some(reading.enable),
        _ => None,
    }
}

fn only_at(read: Read, place: usize) -> Option<Read>
    ensures read { result ≡ slice_get (read ∷ []) place }
    ensures room { OnSome result (place + 1 < 2 ^ 64) }
{
    if place == 0 { Some(read) } else { None }
}
