//! The names of a circle of processes.

ghost use Rattle.std.specs.Prelude.{◌≡◌, ◌++◌, ◌∷◌, [], IfOk, OnOk, map};
ghost use Rattle.fir_base.specs.Lists.{Distinct};
ghost use Rattle.ver_ast.specs.Processes.{processes, process_targets};
ghost use Rattle.ver_valid.specs.working.Circles.{IsCircle};
ghost use Rattle.ver_loop.specs.Loops.{IsClosedWalk};
ghost use Rattle.ver_loop.specs.working.Rounds.{named, round};

use fir_base::{MemoryOut, Name, Seq};
use std::alloc::Global;
use ver_ast::Verilog;
use ver_valid::target_names;

/// The walk of a circle of processes: what they give values, with the first again at the end.
pub fn walk_of(alloc: Global, v: &Verilog, circle: &[usize]) -> Result<Seq<Name>, MemoryOut>
    requires distinct { Distinct (process_targets (processes v.now)) }
    requires circle { IsCircle v.now circle.now }
    ensures { IfOk result (IsClosedWalk v.now) }
{
    let names = target_names(alloc, v)?;
    Ok(Seq::from_vec(names_round(alloc, names.as_slice(), circle)?))
}

/// The names of a circle of numbers, with the first again at the end.
fn names_round(alloc: Global, names: &[&Name], circle: &[usize]) -> Result<Vec<Name>, MemoryOut>
    ensures { IfOk result (λ walk. walk.items ≡ round (map (λ n. n.now) names.now) circle.now) }
{
    let mut walk = Vec::new(alloc);
    for number in circle {
        put_name(alloc, names, *number, &mut walk)?;
    }
    if let Some(first) = circle.first() {
        put_name(alloc, names, *first, &mut walk)?;
    }
    Ok(walk)
}

/// Appends the name of that number.
fn put_name(
    alloc: Global,
    names: &[&Name],
    number: usize,
    out: &mut Vec<Name>,
) -> Result<(), MemoryOut>
    ensures { OnOk result (out.new.items ≡ out.old.items ++ named (map (λ n. n.now) names.now) (number ∷ [])) }
{
    if let Some(name) = names.get(number) {
        out.push(name.copy(alloc)?)?;
    }
    Ok(())
}
