//! The designs of circuits.

ghost use Rattle.fir_design.specs.working.CircuitDesigns.{HasSoundDesigns};

/// Each module of a circuit that shows no fault of names or types has a design, and that is sound: its
/// statements speak of leaves of their modules, an instance has the leaves of its module's ports, and no path is
/// that of two leaves (FIRRTL spec, "Instances", "Namespaces").
pub fn has_sound_designs()
    ensures { HasSoundDesigns }
{}
