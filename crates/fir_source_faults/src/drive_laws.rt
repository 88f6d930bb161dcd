//! Which drives are live, by number and by path.

ghost use Rattle.fir_source_faults.specs.working.DrivesByPath.{ModulesDriveByPath};

/// In each module of a circuit that shows no fault of names or types, the same drives of a leaf are live over
/// numbered leaves as by paths, and read the same; and the same choices leave it undriven, and are told by the same
/// outcomes (FIRRTL spec, "Last Connect Semantics", "Initialization of Components").
pub fn drives_are_live_by_path()
    ensures { ModulesDriveByPath }
{}
