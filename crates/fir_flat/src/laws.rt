//! Laws about flat nets, each the contract of a function that does nothing.

ghost use Rattle.fir_flat.specs.working.FlatInits.{HidesNoInit, ShowsTheSameInits};
ghost use Rattle.fir_flat.specs.working.FlatLaws.{AllowsTheSame, HasOneWhere};
ghost use Rattle.fir_flat.specs.working.FlatLoops.{HidesNoLoop, ShowsTheSameLoops};
ghost use Rattle.fir_flat.specs.working.WholeRoles.{RolesAreWhole};

use fir_bits::laws::has_its_type;

/// A flat net allows at every state and tick what its circuit allows: the same outputs and next states (FIRRTL spec,
/// "Registers", "Nodes", "Conditional Last Connect Semantics").
pub fn flat_nets_allow_the_same()
    ensures { AllowsTheSame }
{
    has_its_type()
}

/// It has exactly one choice of values at every state and tick where its circuit has.
pub fn flat_nets_have_one()
    ensures { HasOneWhere }
{
    has_its_type()
}

/// A closed walk of dependence stands in a flat net exactly where it stands in its circuit, and tells the same fault
/// (FIRRTL spec, "Connects", "Last Connect Semantics").
pub fn flat_nets_show_the_same_loops()
    ensures { ShowsTheSameLoops }
{}

/// Where a flat net has no closed walk, its circuit has none.
pub fn flat_nets_hide_no_loop()
    ensures { HidesNoLoop }
{}

/// An init of a register with an asynchronous reset reaches an input or a leaf that shows state in a flat net exactly
/// where it does in its circuit, and the same fault is told (FIRRTL spec, "Registers").
pub fn flat_nets_show_the_same_inits()
    ensures { ShowsTheSameInits }
{}

/// Where the inits of a flat net are constants, its circuit shows no fault of inits.
pub fn flat_nets_hide_no_init()
    ensures { HidesNoInit }
{}

/// Where a module has types and speaks of its own leaves, the roles of its leaves in its net are made of terms whose
/// parts have their types (FIRRTL spec, "Connects", "Nodes", "Registers").
pub fn roles_are_whole()
    ensures { RolesAreWhole }
{}
