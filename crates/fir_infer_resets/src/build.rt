//! The graph of a circuit's resets is built.

ghost use Rattle.std.specs.Prelude.{◌≡◌, [], ◌++◌, IfOk, List, OnOk, flat_map};
ghost use Rattle.fir_ast.specs.working.Views.{circuit_of};
ghost use Rattle.fir_meaning.specs.working.NameGroups.{HasNames};
ghost use Rattle.fir_meaning.specs.TypeGroup.{type_faults};
ghost use Rattle.fir_type_table.specs.working.Tables.{types_of};
ghost use Rattle.fir_types.specs.working.TypedModules.{IsTyped};
ghost use Rattle.fir_infer_resets.specs.working.Holding.{Holds};
ghost use Rattle.fir_infer_resets.specs.working.Meetings.{Meeting, met_joins};
ghost use Rattle.fir_infer_resets.specs.working.Meets.{AreMeets};
ghost use Rattle.fir_meaning.specs.ResetJoins.{Join};
ghost use Rattle.fir_infer_resets.specs.working.Resolved.{AllStandIn};
ghost use Rattle.fir_infer_resets.specs.working.WholeGraphs.{IsWhole};

use crate::circuit::meets_of;
use crate::joined::Joined;
use crate::meet::Meet;
use crate::meetings::join_meet;
use fir_base::MemoryOut;
use fir_names::Named;
use fir_types::Findings;
use std::alloc::Global;

/// All that meets in all modules is joined.
pub fn joined_of<'a>(
    alloc: Global,
    named: &'a Named,
    findings: &'a Findings,
) -> Result<Joined<'a>, MemoryOut>
    requires names { HasNames (circuit_of named.now) }
    requires typed { IsTyped (circuit_of named.now) findings.now }
    ensures { IfOk result (IsWhole (circuit_of named.now)) }
{
    let meets = meets_of(alloc, named, findings)?;
    let mut joined = Joined::new(alloc);
    for (number, meets) in meets.iter().enumerate() {
        join_module(alloc, named, findings, number, meets, &mut joined)?;
    }
    Ok(joined)
}

/// And all that meets in the module of that number.
fn join_module<'a>(
    alloc: Global,
    named: &'a Named,
    findings: &'a Findings,
    module_number: usize,
    meets: &[Meet<'a>],
    joined: &mut Joined<'a>,
) -> Result<(), MemoryOut>
    requires names { HasNames (circuit_of named.now) }
    requires types { type_faults (circuit_of named.now) ≡ [] }
    ensures { (js : List Join) (ms : List Meeting) → Holds (circuit_of named.now) js joined.old → AreMeets (types_of findings.now.table) meets.now ms → AllStandIn (circuit_of named.now) findings.now module_number ms → OnOk result (Holds (circuit_of named.now) (js ++ flat_map met_joins ms) joined.new) }
{
    for meet in meets {
        join_meet(alloc, named, findings, module_number, meet, joined)?;
    }
    Ok(())
}
