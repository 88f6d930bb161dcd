//! What the leaf circuits of designs mean is what their sources mean.

ghost use Rattle.fir_design.specs.working.CircuitMeanings.{CircuitsMeanTheirSources};
ghost use Rattle.fir_design.specs.working.MeaningLaws.{SameAllows, SameShape};
ghost use Rattle.fir_design.specs.working.SourceRuns.{OneHasRun, SameOne};
ghost use Rattle.fir_design.specs.working.StateOnce.{SourcesStandOnce};

use crate::design_laws::has_sound_designs;
use crate::source_laws::has_one_tree;

/// The leaf circuit of a sound design has the shape of the tree of its source modules: inputs, clocks and
/// state, in the same order (FIRRTL spec, "Ports", "Registers", "Memories").
pub fn leaf_circuits_have_the_shape_of_their_sources()
    ensures { SameShape }
{}

/// And it allows at each tick what the source allows: the same outputs, and the same state behind them (FIRRTL
/// spec, "Circuits", "Instances").
pub fn leaf_circuits_allow_what_their_sources_allow()
    ensures { SameAllows }
{}

/// No path is that of two leaves or of two arrays of the source, nor of two words of its state (FIRRTL spec,
/// "Namespaces", "Registers", "Memories").
pub fn sources_stand_once()
    ensures { SourcesStandOnce }
{}

/// At every state and tick exactly one choice of values is settled in the source where it is in its leaf
/// circuit.
pub fn sources_have_one_where_their_leaf_circuits_have()
    ensures { SameOne }
{}

/// Where it is, and the states behind ticks keep the shape, the source has exactly one run of every length from
/// each state of the shape.
pub fn one_source_has_run()
    ensures { OneHasRun }
{}

/// So each module of a circuit has one design of leaf views and one tree of source modules below it, and both allow
/// the same (FIRRTL spec, "Circuits", "Instances").
pub fn circuits_mean_their_sources()
    ensures { CircuitsMeanTheirSources }
{
    has_sound_designs();
    has_one_tree();
    leaf_circuits_have_the_shape_of_their_sources();
    leaf_circuits_allow_what_their_sources_allow();
}
