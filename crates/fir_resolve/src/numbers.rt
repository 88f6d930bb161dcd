//! The numbers of a circuit's modules, by name.

ghost use Rattle.std.specs.Prelude.{IfOk, map};
ghost use Rattle.fir_ast.specs.working.Views.{module_of};
ghost use Rattle.fir_names.specs.working.Numbered.{HasNumbers, names_of};

use fir_ast::Module;
use fir_base::{MemoryOut, Name};
use std::alloc::Global;
use std::collections::BTreeMap;

/// The number of the first module of each name, from 0 on in the order of the text.
pub type Numbers = BTreeMap<Name, usize>;

/// Numbers modules.
pub fn number_modules(alloc: Global, modules: &[Module]) -> Result<Numbers, MemoryOut>
    ensures { IfOk result (λ numbers. HasNumbers numbers (names_of (map module_of modules.now))) }
{
    let mut numbers = BTreeMap::new(alloc);
    for (number, part) in modules.iter().enumerate() {
        if !numbers.contains_key(&part.ident.name) {
            numbers.insert(part.ident.name.copy(alloc)?, number)?;
        }
    }
    Ok(numbers)
}
