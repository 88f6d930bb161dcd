//! Blocks (IEEE 1364-2005, 9.2.2, 9.4, 9.7.2, 9.8.1).

ghost use Rattle.std.specs.Prelude.{◌≡◌};
ghost use Rattle.std.specs.List.{AllByRecursion};
ghost use Rattle.fir_base.specs.Lists.{In};
ghost use Rattle.ver_ast.specs.declared.tree.Verilog.{Verilog};
ghost use Rattle.ver_ast.specs.Nets.{clocks};
ghost use Rattle.ver_ast.specs.Valid.{AreWrites, IsEdge, IsPlain, IsResetting, IsWrite};
ghost use Rattle.ver_valid.specs.working.Judgement.{Judges};
ghost use Rattle.ver_valid.specs.working.Scopes.{Tells};

use crate::misfit::Misfit;
use crate::operand::{has_width, is_constant_sound, operand, same_width};
use crate::scope::Scope;
use fir_base::{Name, Refused};
use ver_ast::{Always, Edge, Resetting, Write, Writing};

/// The block of a register.
pub fn plain_block(scope: &Scope, block: &Always) -> Result<(), Refused<Misfit>>
    ensures { (v : Verilog) → Tells scope.now v → Judges result (IsPlain v block.now) }
{
    scope.clock(&block.clock)?;
    let width = scope.register(&block.target)?;
    has_width(scope, width, &block.source)
}

/// The block of a register with an asynchronous reset.
pub fn resetting_block(scope: &Scope, block: &Resetting) -> Result<(), Refused<Misfit>>
    ensures { (v : Verilog) → Tells scope.now v → Judges result (IsResetting v block.now) }
{
    same_width(scope.net(&block.reset)?, 1)?;
    same_name(&block.tested, &block.reset)?;
    let width = scope.register(&block.target)?;
    same_width(block.value.width, width)?;
    if !is_constant_sound(block.value) {
        return Err(Refused::Fault(Misfit::Unfit));
    }
    edge(scope, &block.target, width, &block.edge)
}

/// The clock of a register of that name and so many bits, if it has one, and what the register takes.
fn edge(
    scope: &Scope,
    target: &Name,
    width: u32,
    edge: &Option<Edge>,
) -> Result<(), Refused<Misfit>>
    ensures { (v : Verilog) → Tells scope.now v → Judges result (IsEdge v target.now width edge.now) }
{
    match edge {
        None => Ok(()),
        Some(edge) => {
            scope.clock(&edge.clock)?;
            same_name(&edge.target, target)?;
            has_width(scope, width, &edge.source)
        }
    }
}

/// The writes of an array.
pub fn writing_block(scope: &Scope, block: &Writing) -> Result<(), Refused<Misfit>>
    ensures { (v : Verilog) → Tells scope.now v → Judges result (In (clocks v) block.now.clock × AreWrites v block.now.writes) }
{
    scope.clock(&block.clock)?;
    let writes = block.writes.as_slice();
    match writes.first() {
        None => Ok(()),
        Some(first) => writes_of(scope, &first.array, writes),
    }
}

fn writes_of(scope: &Scope, array: &Name, writes: &[Write]) -> Result<(), Refused<Misfit>>
    ensures { (v : Verilog) → Tells scope.now v → Judges result (AllByRecursion (IsWrite v array.now) writes.now) }
{
    for write in writes {
        write_of(scope, array, write)?;
    }
    Ok(())
}

fn write_of(scope: &Scope, array: &Name, write: &Write) -> Result<(), Refused<Misfit>>
    ensures { (v : Verilog) → Tells scope.now v → Judges result (IsWrite v array.now write.now) }
{
    same_name(&write.array, array)?;
    let width = scope.array(array)?;
    has_width(scope, 1, &write.condition)?;
    operand(scope, &write.index)?;
    has_width(scope, width, &write.source)
}

fn same_name(first: &Name, second: &Name) -> Result<(), Refused<Misfit>>
    ensures { Judges result (first.now ≡ second.now) }
{
    if first.as_bytes() == second.as_bytes() {
        Ok(())
    } else {
        Err(Refused::Fault(Misfit::Unfit))
    }
}
