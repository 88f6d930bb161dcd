//! Laws about designs over leaves, each the contract of a function that does nothing.

ghost use Rattle.fir_leaf.specs.working.DesignLaws.{HasDesign, NamesMakeSound, OneDesign, SameArrays, SameDesignClocks, SameDesignStores, SamePorts, SameWords};
ghost use Rattle.fir_leaf.specs.working.CircuitStores.{SameCircuitClocks, SameCircuitStores};
ghost use Rattle.fir_leaf.specs.working.StateLaws.{ArraysAreAll, ArraysHaveBits, ArraysStandOnce, LeafedPortsShowNone, WordsAreAll, WordsShowState, WordsStandOnce};

/// A module has at most one design (FIRRTL spec, "Instances").
pub fn one_design()
    ensures { OneDesign }
{}

/// Where no module holds itself, a module has a design.
pub fn has_design()
    ensures { HasDesign }
{}

/// Where in each module no name is declared twice and no path is that of two leaves, no path of its design
/// is (FIRRTL spec, "Namespaces").
pub fn own_names_make_paths_distinct()
    ensures { NamesMakeSound }
{}

/// For all values the one body of a design stores at the number of each leaf what the statements of its
/// instances store there, and nothing where these store nothing (FIRRTL spec, "Instances", "Conditional
/// Last Connect Semantics").
pub fn flat_stores_are_those_of_the_design()
    ensures { SameDesignStores }
{}

/// And so of clocks.
pub fn flat_clocks_are_those_of_the_design()
    ensures { SameDesignClocks }
{}

/// Over the types that the circuit's leaves hold, and any values of theirs, its body stores what the design
/// does over the same.
pub fn circuits_store_as_their_designs()
    ensures { SameCircuitStores }
{}

/// And so of clocks.
pub fn circuits_clock_as_their_designs()
    ensures { SameCircuitClocks }
{}

/// The words of its state stand in the order of the declarations, each instance's in the place of its
/// declaration (FIRRTL spec, "Registers", "Memories").
pub fn words_are_those_of_the_design()
    ensures { SameWords }
{}

/// And so do its arrays.
pub fn arrays_are_those_of_the_design()
    ensures { SameArrays }
{}

/// No leaf that shows state and has bits is left out of the words.
pub fn no_word_is_left_out()
    ensures { WordsAreAll }
{}

/// And no array is.
pub fn no_array_is_left_out()
    ensures { ArraysAreAll }
{}

/// In a design of modules that were made from their trees no leaf of a port shows state.
pub fn leafed_ports_show_no_state()
    ensures { LeafedPortsShowNone }
{}

/// Where no leaf of a port shows state, each word is that of a leaf that does, and that has bits.
pub fn words_show_state()
    ensures { WordsShowState }
{}

/// Each array that stands in the order has bits.
pub fn arrays_have_bits()
    ensures { ArraysHaveBits }
{}

/// Where no leaf of a port shows state, none stands twice among the words.
pub fn words_stand_once()
    ensures { WordsStandOnce }
{}

/// And no array stands twice in its order.
pub fn arrays_stand_once()
    ensures { ArraysStandOnce }
{}

/// The leaves of an instance have the paths of the leaves of its module's ports, in order.
pub fn instances_have_the_leaves_of_ports()
    ensures { SamePorts }
{}
