//! The clock of each clock leaf, worked out once.

ghost use Rattle.std.specs.Prelude.{◌≡◌, ◌<◌, IfOk, length, slice_index, slice_set};
ghost use Rattle.fir_net.specs.working.IsOrder.{IsOrder};
ghost use Rattle.fir_tick.specs.working.Roots.{clocks_before, root_at, role_root, AreRoots};

use fir_ast::LeafId;
use fir_base::MemoryOut;
use fir_net::{FlatNet, Leaf, Read, Role};
use std::alloc::Global;

/// Of each clock leaf the number of its clock among the clock inputs, or none.
pub fn clock_roots(
    alloc: Global,
    net: &FlatNet,
    order: &[Read],
) -> Result<Vec<Option<usize>>, MemoryOut>
    requires { IsOrder net.now order.now }
    ensures { IfOk result (λ v. AreRoots net.now v.items) }
{
    let leaves = net.leaves.as_slice();
    let numbers = clocks_before(alloc, leaves)?;
    let mut roots = vec![in alloc; None; leaves.len()]?;
    find_roots(net, order, numbers.as_slice(), &mut roots);
    Ok(roots)
}

/// How many clock inputs stand before each leaf.
fn clocks_before(alloc: Global, leaves: &[Leaf]) -> Result<Vec<usize>, MemoryOut>
    ensures { IfOk result (λ v. v.items ≡ clocks_before 0 leaves.now) }
{
    let mut numbers = Vec::new(alloc);
    let mut count = 0;
    for leaf in leaves {
        numbers.push(count)?;
        if let Role::Clock = leaf.role {
            count += 1;
        }
    }
    Ok(numbers)
}

/// Finds the clocks in an order, in which each leaf stands behind the one that drives it.
fn find_roots(net: &FlatNet, order: &[Read], numbers: &[usize], roots: &mut [Option<usize>])
    requires ordered { IsOrder net.now order.now }
    requires numbers { numbers.now ≡ clocks_before 0 net.now.leaves }
    requires room { length roots.old ≡ length net.now.leaves }
    ensures { AreRoots net.now roots.new }
{
    let leaves = net.leaves.as_slice();
    for read in order {
        match read {
            Read::Leaf(leaf) => {
                let number = leaf.number();
                find_root(roots, number, &leaves[number], count_at(numbers, number));
            }
            Read::Node(_) => {}
        }
    }
}

/// The count at a leaf.
fn count_at(numbers: &[usize], leaf: usize) -> usize
    ensures { result ≡ slice_index numbers.now leaf }
{
    numbers.get(leaf).copied().unwrap_or(0)
}

/// Finds the clock of a leaf, where so many clock inputs stand before it.
fn find_root(roots: &mut [Option<usize>], number: usize, leaf: &Leaf, before: usize)
    requires { number < length roots.old }
    ensures { roots.new ≡ slice_set roots.old number (role_root (root_at roots.old) before leaf.now.role) }
{
    roots[number] = root(roots, before, leaf.role);
}

/// The clock of a leaf, where so many clock inputs stand before it.
fn root(roots: &[Option<usize>], number: usize, role: Role) -> Option<usize>
    ensures { result ≡ role_root (root_at roots.now) number role }
{
    match role {
        Role::Clock => Some(number),
        Role::ClockOutput(Some(clock)) | Role::ClockWire(Some(clock)) => root_at(roots, clock),
        _ => None,
    }
}

/// The clock at a leaf.
pub fn root_at(roots: &[Option<usize>], leaf: LeafId) -> Option<usize>
    ensures { result ≡ root_at roots.now leaf }
{
    match roots.get(leaf.number()) {
        Some(root) => *root,
        None => None,
    }
}
