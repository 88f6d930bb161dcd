//! The walk over a circuit: all numbers and bounds, and the spots where faults of widths may stand.

ghost use Rattle.std.specs.Prelude.{◌≡◌, ◌+◌, IfOk, OnOk, Some, slice_get};
ghost use Rattle.fir_ast.specs.working.Views.{circuit_of, module_of};
ghost use Rattle.fir_meaning.specs.working.NameGroups.{HasNames};
ghost use Rattle.fir_type_table.specs.working.Tables.{types_of};
ghost use Rattle.fir_types.specs.working.TypedModules.{IsTyped};
ghost use Rattle.fir_infer_widths.specs.working.Circuits.{IsWalked, WalkedSoFar};

use crate::arena::Arena;
use crate::declared::declared_leaves;
use crate::ground::Ground;
use crate::module::in_module;
use crate::spot::Spot;
use crate::walk::Walk;
use fir_ast::Module;
use fir_base::MemoryOut;
use fir_meaning::faultless_is_well_typed;
use fir_names::Named;
use fir_types::Findings;
use std::alloc::Global;

/// What the walk over a circuit has made.
#[derive(Drop)]
pub struct Walked<'a> {
    pub arena: Arena,
    pub spots: Vec<Spot<'a>>,
}

/// All expressions of a circuit under numbers, and its spots in the order of the text.
pub fn in_circuit<'a>(
    alloc: Global,
    named: &'a Named,
    findings: &'a Findings,
) -> Result<Walked<'a>, MemoryOut>
    requires { IsTyped (circuit_of named.now) findings.now }
    ensures { IfOk result (IsWalked (circuit_of named.now) (types_of findings.now.table)) }
{
    let circuit = named.circuit();
    let mut walk = Walk {
        notes: &[],
        declared: 0,
        arena: declared_leaves(alloc, named, findings)?,
        spots: Vec::new(alloc),
    };
    for (number, part) in circuit.modules.iter().enumerate() {
        in_numbered(alloc, named, findings, number, part, &mut walk)?;
    }
    Ok(Walked {
        arena: walk.arena,
        spots: walk.spots,
    })
}

/// The module of a number.
fn in_numbered<'a>(
    alloc: Global,
    named: &'a Named,
    findings: &'a Findings,
    number: usize,
    part: &'a Module,
    walk: &mut Walk<'a>,
) -> Result<(), MemoryOut>
    requires names { HasNames (circuit_of named.now) }
    requires typed { IsTyped (circuit_of named.now) findings.now }
    requires there { slice_get (circuit_of named.now).modules number ≡ Some (module_of part.now) }
    ensures { WalkedSoFar (circuit_of named.now) (types_of findings.now.table) number walk.old → OnOk result (WalkedSoFar (circuit_of named.now) (types_of findings.now.table) (number + 1) walk.new) }
{
    faultless_is_well_typed();
    let ground = Ground {
        table: &findings.table,
        declared: findings.declared[number].as_slice(),
        first_leaves: findings.first_leaves[number].as_slice(),
        is_main: part.ident.name == named.circuit().ident.name,
    };
    walk.notes = findings.notes[number].as_slice();
    walk.declared = 0;
    in_module(part, alloc, &ground, walk)
}
