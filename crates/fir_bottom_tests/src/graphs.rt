//! Orders and circles of small graphs, against what was worked out by hand.

ghost use Rattle.std.specs.Prelude.{◌≡◌, ◌+◌, ◌^◌, ◌<◌, OnSome, slice_get};

use fir_base::{MemoryOut, Refused};
use fir_graph::{Graph, order};
use std::alloc::Global;
use std::test::Fail;

/// A graph by the targets of each vertex, each counted round from the first on where it is too large. Only the
/// vertices below a number count.
#[derive(Clone, Copy)]
struct Table {
    targets: &'static [&'static [usize]],
    counted: usize,
}

impl Graph for Table {
    ghost use Rattle.std.specs.Prelude.{[], ◌%◌, length, map, option_map, slice_get, unwrap_or};

    ghost size = { λ t. length t.targets.now };

    ghost targets = { λ t v. map (λ w. w % length t.targets.now) (unwrap_or (option_map (λ r. r.now) (slice_get t.targets.now v)) []) };

    fn size(&self) -> usize {
        self.targets.len()
    }

    fn target(&self, vertex: usize, place: usize) -> Option<usize> {
        match self.targets.get(vertex) {
            Some(row) => match item(row, place) {
                Some(target) => Some(target % self.targets.len()),
                None => None,
            },
            None => None,
        }
    }

    fn counts(&self, vertex: usize) -> bool {
        vertex < self.counted
    }
}

fn item(row: &[usize], place: usize) -> Option<usize>
    ensures found { result ≡ slice_get row.now place }
    ensures room { OnSome result (place + 1 < 2 ^ 64) }
{
    row.get(place).copied()
}

/// A graph, how many of its vertices count, whether there is an order, and the order or the circle.
type Case = (&'static [&'static [usize]], usize, bool, &'static [usize]);

const CASES: &[Case] = &[
    (&[], 0, true, &[]),
    // Nothing has a target.
    (&[&[], &[], &[]], 3, true, &[0, 1, 2]),
    // A chain against the order of its numbers.
    (&[&[1], &[2], &[3], &[]], 4, true, &[3, 2, 1, 0]),
    // Two ways to one vertex, and an edge that stands twice.
    (&[&[2, 3], &[0, 0], &[3], &[]], 4, true, &[3, 2, 0, 1]),
    // A vertex that is its own target.
    (&[&[], &[0, 1]], 2, false, &[1]),
    // A circle of three, reached from a fourth.
    (&[&[1], &[2], &[3], &[1]], 4, false, &[1, 2, 3]),
    // Two circles through the first vertex, of which the longer is met first.
    (&[&[1, 3], &[2], &[0], &[0]], 4, false, &[0, 3]),
    // The longer one, where it has fewer that count.
    (&[&[1, 2], &[0], &[3], &[0]], 2, false, &[0, 2, 3]),
    // A circle in which none counts.
    (&[&[1], &[2], &[0]], 0, false, &[0, 1, 2]),
];

#[test]
fn orders_and_circles(rt: HostRuntime) -> Result<(), Fail> {
    for (number, (targets, counted, ordered, wanted)) in CASES.iter().enumerate() {
        let graph = Table {
            targets: *targets,
            counted: *counted,
        };
        let (told, vertices) = told(rt.alloc(), &graph)?;
        assert_eq!(rt; told, *ordered, "case {number}");
        assert_eq!(rt; vertices.as_slice(), *wanted, "case {number}");
    }
    Ok(())
}

/// Whether there is an order, and the order or the circle.
fn told(alloc: Global, graph: &Table) -> Result<(bool, Vec<usize>), MemoryOut> {
    match order(alloc, graph) {
        Ok(vertices) => Ok((true, vertices)),
        Err(Refused::Fault(circle)) => Ok((false, circle.into_vec())),
        Err(Refused::Memory) => Err(MemoryOut),
    }
}
