//! What is read, by number and by path.

ghost use Rattle.fir_source_faults.specs.working.ReadsByPath.{ModulesReadByPath};

/// In each module of a circuit that shows no fault of names or types, what the terms of expressions read, and the
/// leaves that the targets of references name, is by paths what the expressions read and the references name
/// (FIRRTL spec, "References", "Sub-accesses", "Expressions").
pub fn terms_read_as_expressions()
    ensures { ModulesReadByPath }
{}
