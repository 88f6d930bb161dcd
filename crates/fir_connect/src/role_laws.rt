//! Laws about the roles of leaves in a net, each the contract of a function that does nothing.

ghost use Rattle.fir_connect.specs.working.RoleLaws.{RolesAreWorth, RolesReadTheSame};

/// For all values within the widths of the leaves, each leaf gets in the net what it gets in the module (FIRRTL spec,
/// "Conditional Last Connect Semantics", "Nodes", "Registers").
pub fn roles_are_worth()
    ensures { RolesAreWorth }
{}

/// The driver of a leaf reads what the statements read that are live for it; a node, and the clock and the reset of a
/// register, what their expressions read.
pub fn roles_read_the_same()
    ensures { RolesReadTheSame }
{}
