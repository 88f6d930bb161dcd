//! What live drives read in whole designs, by number and by path.

ghost use Rattle.fir_design_faults.specs.working.SameDriveReads.{SameDriveReads};

/// In every sound design of a circuit that shows no fault of names or types, with instances, what the statements read
/// that are live for a leaf over numbered leaves is what the drives read that are live for it in the module that drives
/// it, by paths (FIRRTL spec, "Last Connect Semantics", "Instances").
pub fn live_reads_stand_by_path()
    ensures { SameDriveReads }
{}
