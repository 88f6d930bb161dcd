//! Faults of clocks, and of the clocks of memories, by number and by path.

ghost use Rattle.fir_design_faults.specs.working.SameClockFaults.{SameClockFaults};
ghost use Rattle.fir_design_faults.specs.working.SameMemoryClocks.{SameClocks, SameMemoryClocks};
ghost use Rattle.fir_design_faults.specs.working.SameMemoryFaults.{SameMemoryFaults};

use fir_design::views_have_roles;
use fir_source_faults::terms_read_as_expressions;

/// In every sound design of a circuit that shows no fault of names or types, with instances, a clock is driven by two
/// live drives, or picked by an index, over numbered leaves exactly where it is by paths, and the fault is told alike
/// (FIRRTL spec, "Clock Type", "Last Connect Semantics", "Instances").
pub fn clock_faults_stand_by_path()
    ensures { SameClockFaults }
{}

/// In each module of a circuit that shows no fault of names or types, the chain of a clock leaf ends over numbered
/// leaves at the input, or at what an instance gives, at which it ends by paths (FIRRTL spec, "Clock Type").
pub fn clocks_have_names_by_path()
    ensures { SameClocks }
{
    views_have_roles();
    terms_read_as_expressions();
}

/// In each module of a circuit that shows no fault of names or types, two ports of a memory are on different clocks
/// over numbered leaves exactly where they are by paths (FIRRTL spec, "Memories").
pub fn memory_clocks_stand_by_path()
    ensures { SameMemoryClocks }
{
    views_have_roles();
    terms_read_as_expressions();
}

/// Of all modules of a circuit that shows no fault of names or types, those of instances too, the same fault of the
/// clocks of a memory is shown over numbered leaves as by paths, and the same one is told (FIRRTL spec, "Memories",
/// "Instances").
pub fn memory_faults_stand_by_path()
    ensures { SameMemoryFaults }
{
    memory_clocks_stand_by_path();
}
