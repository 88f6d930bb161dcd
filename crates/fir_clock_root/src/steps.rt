//! A step of the walk, and its end.

ghost use Rattle.std.specs.Prelude.{◌≡◌, ◌≤◌, length};
ghost use Rattle.fir_clock_root.specs.working.ClockRoots.{is_clock_input, inputs_before};
ghost use Rattle.fir_clock_root.specs.working.ClockSteps.{driver_at, number_at, role_driver};

use fir_ast::LeafId;
use fir_net::{Leaf, Role};

/// The clock leaf that drives a clock leaf, if one does.
pub fn driver_of(leaves: &[Leaf], leaf: LeafId) -> Option<LeafId>
    ensures { result ≡ driver_at leaves.now leaf }
{
    match leaves.get(leaf.number()) {
        Some(found) => role_driver(found.role),
        None => None,
    }
}

fn role_driver(role: Role) -> Option<LeafId>
    ensures { result ≡ role_driver role }
{
    match role {
        Role::ClockOutput(driver) | Role::ClockWire(driver) => driver,
        _ => None,
    }
}

/// The number of a clock input among the clock inputs; no other leaf has one.
pub fn input_number(leaves: &[Leaf], leaf: LeafId) -> Option<usize>
    ensures { result ≡ number_at leaves.now leaf }
{
    let number = leaf.number();
    match leaves.get(number) {
        Some(found) if is_clock_input(found) => Some(inputs_before(leaves, number)),
        _ => None,
    }
}

/// How many clock inputs stand before the leaf of that number.
fn inputs_before(leaves: &[Leaf], number: usize) -> usize
    requires { number ≤ length leaves.now }
    ensures { result ≡ inputs_before leaves.now number }
{
    let before = &leaves[..number];
    before.iter().filter(|leaf| is_clock_input(leaf)).count()
}

fn is_clock_input(leaf: &Leaf) -> bool
    ensures { result ≡ is_clock_input leaf.now.role }
{
    matches!(leaf.role, Role::Clock)
}
