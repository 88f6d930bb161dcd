//! What connects, invalids and whens store.

ghost use Rattle.fir_source_laws.specs.working.ConnectLaws.{LastConnect, LastPartialConnect, LastGroundConnect, SparedInTrees, SparedStays, UndrivenKeeps};
ghost use Rattle.fir_source_laws.specs.working.DepthLaws.{DepthsAreWhens};
ghost use Rattle.fir_source_laws.specs.working.FitLaws.{ConnectsFit, InvalidSparesSources, InvalidStores};
ghost use Rattle.fir_source_laws.specs.working.PickLaws.{SubaccessesPick};
ghost use Rattle.fir_source_laws.specs.working.WhenLaws.{InnerLeavesCountNone, WhenRunsOne};

/// Of all connects that drive a leaf the last one counts: a pair of a connect gives what is stored at its leaf,
/// where no later pair of it and no later statement drives that leaf, whatever stood before. The leaf is
/// declared within all whens round the connect, as each is where there are none. So for numbers and for clocks
/// (FIRRTL spec, "Connects", "Last Connect Semantics").
pub fn last_connect_is_stored()
    ensures { LastConnect }
{}

/// And of partial connects, by the pairs of these (FIRRTL spec, "Partial Connects").
pub fn last_partial_connect_is_stored()
    ensures { LastPartialConnect }
{}

/// So where a module's body has a connect of ground leaves in no when, and nothing behind it drives its leaf,
/// the value of its right side is stored there, at the type of the leaf (FIRRTL spec, "Connects").
pub fn last_connect_of_a_body_is_stored()
    ensures { LastGroundConnect }
{}

/// A leaf that no statement of a block drives, or only within whens that are not taken, stays as it was
/// (FIRRTL spec, "Last Connect Semantics").
pub fn spared_leaves_stay()
    ensures { SparedStays }
{}

/// So does one that no statement of a module, nor of the modules of its instances, drives (FIRRTL spec,
/// "Instances").
pub fn leaves_spared_by_trees_stay()
    ensures { SparedInTrees }
{}

/// Where no statement of a circuit drives a leaf, nothing is stored there, and a register whose clock has an
/// edge takes what it shows (FIRRTL spec, "Registers").
pub fn undriven_leaves_keep_what_they_show()
    ensures { UndrivenKeeps }
{}

/// A connect extends a narrower value by its own sign, so that it stands for the same integer, and cuts a wider
/// one to its low bits; the other way round at a flipped leaf (FIRRTL spec, "Connects").
pub fn connects_extend_or_cut()
    ensures { ConnectsFit }
{}

/// An invalid stores zero at each number that it names and that may be driven, and no clock at each clock
/// (FIRRTL spec, "Invalidates").
pub fn invalids_store_zero()
    ensures { InvalidStores }
{}

/// An invalid leaves a source as it was (FIRRTL spec, "Invalidates", "Flow").
pub fn invalids_spare_sources()
    ensures { InvalidSparesSources }
{}

/// At a leaf that is declared outside of a when, the when stores what the block that is run would store in the
/// place of the when: the first where the condition is 1, else the second. So a leaf that this block does not
/// drive keeps what an earlier connect gave it (FIRRTL spec, "Conditional Last Connect Semantics").
pub fn whens_run_one_block()
    ensures { WhenRunsOne }
{}

/// A leaf that is declared within so many whens is stored alike, whichever of these are taken (FIRRTL spec,
/// "Conditional Scopes").
pub fn inner_leaves_count_no_outer_when()
    ensures { InnerLeavesCountNone }
{}

/// A leaf is declared within as many whens as stand round its declaration in the text, a port within none,
/// where each name of the module is declared once (FIRRTL spec, "Conditional Scopes").
pub fn depths_are_whens()
    ensures { DepthsAreWhens }
{}

/// A sub-access whose index has a value in range is the sub-index of that number, in what it reads and in what
/// it drives; out of range it reads zero and drives nothing (FIRRTL spec, "Sub-accesses").
pub fn subaccesses_pick()
    ensures { SubaccessesPick }
{}
