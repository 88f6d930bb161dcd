//! The clocks of the ports of a memory.

ghost use Rattle.std.specs.Prelude.{◌≡◌, ◌↔◌, ℕ, Some};
ghost use Rattle.fir_memory_clocks.specs.working.PortClocks.{HasRootIn, IsDiffering, IsFirstPair, first_of};

/// The clocks of two ports, by the leaves at which their chains of connects end.
#[derive(Clone, Copy)]
pub struct TwoClocks {
    pub clock: usize,
    pub other_clock: usize,
}

/// The clock of the first port that has one, and the first that differs from it. The ports are given by their clock
/// leaves, and the roots by the numbers of the leaves.
pub fn two_clocks(roots: &[Option<usize>], ports: &[usize]) -> Option<TwoClocks>
    ensures { IsFirstPair (HasRootIn roots.now) ports.now result }
{
    let mut first = None;
    for port in ports {
        let root = root_at(roots, *port);
        if let Some(clocks) = differing(first, root) {
            return Some(clocks);
        }
        first = first_of(first, root);
    }
    None
}

/// The clocks of two ports, where both have one and these differ.
fn differing(one: Option<usize>, other: Option<usize>) -> Option<TwoClocks>
    ensures { IsDiffering one other result }
{
    let clock = one?;
    let other_clock = other?;
    if clock == other_clock {
        return None;
    }
    Some(TwoClocks { clock, other_clock })
}

/// The first of two that is there.
fn first_of(one: Option<usize>, other: Option<usize>) -> Option<usize>
    ensures { result ≡ first_of one other }
{
    match one {
        Some(_) => one,
        None => other,
    }
}

/// The root of a leaf.
fn root_at(roots: &[Option<usize>], leaf: usize) -> Option<usize>
    ensures { (root : ℕ) → (result ≡ Some root) ↔ HasRootIn roots.now leaf root }
{
    match roots.get(leaf) {
        Some(root) => *root,
        None => None,
    }
}
