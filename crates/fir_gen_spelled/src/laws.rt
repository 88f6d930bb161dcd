//! A law about the definitions, the contract of a function that does nothing.

ghost use Rattle.fir_gen_spelled.specs.working.Laws.{GenIsSpelled};

/// The text of so many registers spells their tree, wherever its parts then stand.
pub fn gen_is_spelled()
    ensures { GenIsSpelled }
{}
