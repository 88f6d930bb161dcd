//! What the circuit of a design has from its modules.

ghost use Rattle.fir_copies.specs.working.WholeDesigns.{DesignsAreDriven, DesignsAreTyped, DesignsHaveTypedMemories};

/// Where each module of a design has types, its circuit has (FIRRTL spec, "Expressions", "Connects").
pub fn designs_are_typed()
    ensures { DesignsAreTyped }
{}

/// Where the memories of each module have types, those of the circuit have (FIRRTL spec, "Memories").
pub fn designs_have_typed_memories()
    ensures { DesignsHaveTypedMemories }
{}

/// Where each module drives the leaves that its statements must drive, the circuit's statements do (FIRRTL spec,
/// "Initialization of Components").
pub fn designs_are_driven()
    ensures { DesignsAreDriven }
{}
