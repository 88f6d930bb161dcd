//! What meets in the modules of a circuit.

ghost use Rattle.std.specs.Prelude.{◌≡◌, List, IfOk};
ghost use Rattle.fir_ast.specs.Types.{DataType};
ghost use Rattle.fir_ast.specs.working.Views.{circuit_of, module_of};
ghost use Rattle.fir_type_table.specs.working.Tables.{types_of};
ghost use Rattle.fir_types.specs.working.ModuleNotes.{module_notes};
ghost use Rattle.fir_types.specs.working.TypedModules.{IsTyped};
ghost use Rattle.fir_infer_resets.specs.working.Meets.{Ahead, AreMeets};
ghost use Rattle.fir_infer_resets.specs.working.ModuleMeets.{AreMeetsByModule, module_meetings};
ghost use Rattle.fir_meaning.specs.ResetJoins.{ResetModule, reset_modules};

use crate::meet::Meet;
use crate::meets::{Walk, in_block};
use fir_ast::Module;
use fir_base::MemoryOut;
use fir_names::Named;
use fir_types::{Findings, Note};
use std::alloc::Global;

/// What meets in each module, by the modules' numbers, and in the order of the text.
pub fn meets_of<'a>(
    alloc: Global,
    named: &'a Named,
    findings: &'a Findings,
) -> Result<Vec<Vec<Meet<'a>>>, MemoryOut>
    requires typed { IsTyped (circuit_of named.now) findings.now }
    ensures { IfOk result (λ meets. AreMeetsByModule (types_of findings.now.table) meets.items (reset_modules 0 (circuit_of named.now).modules (circuit_of named.now).modules)) }
{
    let mut meets = Vec::new(alloc);
    for (number, part) in named.circuit().modules.iter().enumerate() {
        let Some(notes) = findings.notes.get(number) else {
            unreachable!()
        };
        meets.push(in_module(alloc, part, notes)?)?;
    }
    Ok(meets)
}

/// What meets in a module, of whose expressions these notes are found.
fn in_module<'a>(
    alloc: Global,
    part: &'a Module,
    notes: &'a [Note],
) -> Result<Vec<Meet<'a>>, MemoryOut>
    ensures { (ts : List DataType) (m : ResetModule) → m.inside ≡ module_of part.now → Ahead ts notes.now (module_notes m.modules m.inside) → IfOk result (λ meets. AreMeets ts meets.items (module_meetings m)) }
{
    let mut walk = Walk {
        notes,
        declared: part.ports.len(),
        meets: Vec::new(alloc),
    };
    in_block(&part.body, &mut walk)?;
    Ok(walk.meets)
}
