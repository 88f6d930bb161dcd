//! The laws, each as the contract of a function that does nothing.

ghost use Rattle.fir_memory_types.specs.working.Laws.{LeafedArraysAreInOrder, LeafedClocksAreOfMemories, LeafedMemoriesAreTyped};

/// The memories of the modules of a circuit without faults of names, types or widths have types.
pub fn memories_are_typed()
    ensures { LeafedMemoriesAreTyped }
{}

/// The clocks of all that reads an array at edges, and of all that writes it, are those of the ports of one memory.
pub fn clocks_are_of_memories()
    ensures { LeafedClocksAreOfMemories }
{}

/// The arrays of a module stand in the order in which their memories are declared.
pub fn arrays_are_in_order()
    ensures { LeafedArraysAreInOrder }
{}
