//! Undriven leaves, by number and by path.

ghost use Rattle.fir_source_faults.specs.working.SameFaults.{SameUndrivenGroups};

/// A circuit that shows no fault of names or types shows the same undriven leaves (E24) over numbered leaves as by
/// paths, and the same one is told (FIRRTL spec, "Initialization of Components").
pub fn leaves_are_undriven_by_path()
    ensures { SameUndrivenGroups }
{}
