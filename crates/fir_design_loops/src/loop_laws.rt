//! Closed walks of dependence, and what inits reach, by number and by path.

ghost use Rattle.fir_design_loops.specs.working.SameInits.{SameInits};
ghost use Rattle.fir_design_loops.specs.working.SameLoops.{SameLoops};

use fir_design::views_have_roles;
use fir_design_faults::live_reads_stand_by_path;
use fir_source_faults::terms_read_as_expressions;

/// In every sound design of a circuit that shows no fault of names or types, with instances, a leaf depends on itself
/// within a tick over numbered leaves exactly where it does by paths, and the fault is told alike (FIRRTL spec,
/// "Connects", "Last Connect Semantics", "Instances").
pub fn loops_stand_by_path()
    ensures { SameLoops }
{
    views_have_roles();
    terms_read_as_expressions();
    live_reads_stand_by_path();
}

/// In every sound design of a circuit that shows no fault of names or types, with instances, what gives a register with
/// an asynchronous reset its init reaches an input or state over numbered leaves exactly where it does by paths, and the
/// fault is told alike (FIRRTL spec, "Registers", "Instances").
pub fn inits_stand_by_path()
    ensures { SameInits }
{
    views_have_roles();
    terms_read_as_expressions();
    live_reads_stand_by_path();
}
