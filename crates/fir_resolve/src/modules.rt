//! The names in the modules of a circuit, in the order of the text.

ghost use Rattle.std.specs.Prelude.{◌≡◌, List, map};
ghost use Rattle.fir_ast.specs.Statements.{PlacedName};
ghost use Rattle.fir_ast.specs.working.Views.{module_of};
ghost use Rattle.fir_names.specs.working.Numbered.{HasNumbers};
ghost use Rattle.fir_names.specs.working.Judged.{JudgesModules};

use crate::module::in_module;
use crate::namespace::Namespace;
use crate::numbers::Numbers;
use fir_ast::{FirFault, Module};
use fir_base::Refused;
use fir_names::Names;
use std::alloc::Global;

/// The tables of modules, or the first fault of names in them: E09 of a module's name stands before what
/// is in the module.
pub fn in_modules(
    alloc: Global,
    numbers: &Numbers,
    modules: &[Module],
) -> Result<Vec<Names>, Refused<FirFault>>
    ensures { (names : List PlacedName) → HasNumbers numbers.now names → JudgesModules names (map module_of modules.now) result }
{
    let mut namespace = Namespace::new(alloc);
    let mut tables = Vec::new(alloc);
    for part in modules {
        let ident = &part.ident;
        if let Some(fault) = namespace.declare(alloc, ident.place, &ident.name)? {
            return Err(Refused::Fault(fault));
        }
        tables.push(in_module(alloc, numbers, part)?)?;
    }
    Ok(tables)
}
