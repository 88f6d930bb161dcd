//! The law, as the contract of a function that does nothing.

ghost use Rattle.fir_leaf_types.specs.working.TypedModules.{LeafedModulesAreTyped};

use fir_meaning::widths_grow;

/// The leaf views of the modules of a circuit without faults of names, types or widths have types.
pub fn leafed_modules_are_typed()
    ensures { LeafedModulesAreTyped }
{
    widths_grow();
}
