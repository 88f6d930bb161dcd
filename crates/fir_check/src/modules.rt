//! The types in the modules of a circuit, in the order of the text.

ghost use Rattle.std.specs.Prelude.{◌≡◌};
ghost use Rattle.fir_ast.specs.working.Views.{circuit_of};
ghost use Rattle.fir_types.specs.working.TypedModules.{JudgesTypes};

use crate::bundles::add_bundles;
use crate::module::in_module;
use fir_ast::FirFault;
use fir_base::Refused;
use fir_names::Named;
use fir_type_table::TypeTable;
use fir_types::{Findings, first_leaves};
use std::alloc::Global;

/// What is found of each module, with the table of the types; or the first fault of types.
pub fn in_modules(alloc: Global, named: &Named) -> Result<Findings, Refused<FirFault>>
    ensures { JudgesTypes (circuit_of named.now) result }
{
    let mut table = TypeTable::new(alloc)?;
    let bundles = add_bundles(alloc, &mut table, &named.circuit().modules)?;
    let mut declared = Vec::new(alloc);
    let mut notes = Vec::new(alloc);
    for (number, part) in named.circuit().modules.iter().enumerate() {
        let Some(names) = named.names(number) else {
            unreachable!()
        };
        let (scope, noted) = in_module(alloc, names, &bundles, part, table)?;
        table = scope.table;
        declared.push(scope.declared)?;
        notes.push(noted)?;
    }
    let first_leaves = first_leaves(alloc, named, &table, &bundles, &declared)?;
    Ok(Findings {
        table,
        declared,
        notes,
        first_leaves,
    })
}
