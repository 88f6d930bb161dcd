//! What is wrong with a tree.

ghost use Rattle.ver_check.specs.TreeFaults.{misfits, undriven};
ghost use Rattle.ver_check.specs.working.Findings.{Finds, FindsElse};

use crate::walk::Walk;
use fir_base::Refused;
use std::alloc::Global;
use ver_ast::Verilog;
use ver_fault::VerFault;
use ver_places::{behind, behind_ports};

/// Refuses a tree for its first fault of V03, V04 and V05 in the order of the text, else for the first wire or output in
/// the text that nothing drives, V08. Places are those of the tree; where it has none they are line 0, column 0.
pub fn check(alloc: Global, v: &Verilog) -> Result<(), Refused<VerFault>>
    ensures { FindsElse result (misfits v.now) (undriven v.now) }
{
    let places = behind(v.places.as_slice(), 2);
    let mut walk = Walk::new(alloc);
    walk.take_all(alloc, places, v)?;
    walk.all_driven(alloc)
}
