//! When a flat net may stand in the place of another: laws alone, for the passes that write a net anew. Such a pass
//! shows that each leaf reads the same values as before (`Rewrites`); that the net then allows the same at every tick,
//! with the same names and words (`IsEquivalent`), is proved here once.
#![tactic(auto)]

pub mod laws;
