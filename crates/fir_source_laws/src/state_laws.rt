//! What registers and memories hold and show, tick by tick.

ghost use Rattle.fir_source_laws.specs.working.DeclaredRegisters.{AreDeclared};
ghost use Rattle.fir_source_laws.specs.working.MemoryPortLaws.{OthersAreDriven};
ghost use Rattle.fir_source_laws.specs.working.ReadLaws.{
  OfPipes,
  OfShown,
  PipeKeeps,
  PipesTheNewWord,
  PipesTheOldWord,
  PipesZero,
  ShowsPipe,
  ShowsWord,
  ShowsZero,
};
ghost use Rattle.fir_source_laws.specs.working.RegisterLaws.{
  HoldsWhereNothingIsStored,
  IsResetAtEdge,
  KeepsItsInit,
  KeepsWithoutEdge,
  OfRegisters,
  ShowsInitAtOnce,
  ShowsItsWord,
  TakesWhatIsStored,
};
ghost use Rattle.fir_source_laws.specs.working.RunLaws.{
  HoldsUntilEdge,
  IsReadUntilWrittenAgain,
  ReadsATickLater,
};
ghost use Rattle.fir_source_laws.specs.working.WriteLaws.{
  MaskedKeeps,
  OfWrites,
  StaysUnwritten,
  StaysWithoutEdgeOrPastDepth,
  TakesTheLastWrite,
  TakesTheLaterWrite,
};

/// Each leaf of the statement of a register is a register with the clock and the reset of the statement, and
/// takes the leaf of the init at its own path (FIRRTL spec, "Registers").
pub fn registers_are_declared()
    ensures { AreDeclared }
{}

/// A register whose clock has no edge keeps its word, unless an asynchronous reset is 1 (FIRRTL spec,
/// "Registers", "Clock Type").
pub fn registers_keep_their_word()
    ensures { OfRegisters KeepsWithoutEdge }
{}

/// At an edge, and where no reset is 1, it takes what the statements store (FIRRTL spec, "Registers",
/// "Connects").
pub fn registers_take_what_is_stored()
    ensures { OfRegisters TakesWhatIsStored }
{}

/// It holds its word where these store nothing (FIRRTL spec, "Registers").
pub fn registers_hold_where_nothing_is_stored()
    ensures { OfRegisters HoldsWhereNothingIsStored }
{}

/// A synchronous reset that is 1 wins over all connects at an edge, where the register takes its init, at the
/// width of the register; without an edge it does nothing (FIRRTL spec, "Registers").
pub fn synchronous_resets_act_at_edges()
    ensures { OfRegisters IsResetAtEdge }
{}

/// A register shows its word unless an asynchronous reset is 1: a synchronous one changes nothing of what it
/// shows within the tick (FIRRTL spec, "Registers").
pub fn registers_show_their_word()
    ensures { OfRegisters ShowsItsWord }
{}

/// While an asynchronous reset is 1, the register shows its init at once, and its init is its word behind the
/// tick, with an edge or without (FIRRTL spec, "Registers").
pub fn asynchronous_resets_act_at_once()
    ensures { OfRegisters ShowsInitAtOnce }
{}

/// It keeps that init: from any state, a tick with the reset 1 and then a tick with the reset 0 show it both, and
/// without an edge at the second it is the word behind both (FIRRTL spec, "Registers").
pub fn asynchronous_resets_are_kept()
    ensures { OfRegisters KeepsItsInit }
{}

/// The leaves of a memory's ports are driven by the statements of its module, but for the data of a reader and the
/// rdata of a readwriter (FIRRTL spec, "Memories").
pub fn memory_ports_are_driven()
    ensures { OthersAreDriven }
{}

/// A port without latency that is enabled, and that does not write as a readwriter, shows the word at its
/// address at once (FIRRTL spec, "Memories").
pub fn reads_show_their_word()
    ensures { OfShown ShowsWord }
{}

/// One that is not enabled, that writes, or that has an address past the depth, shows zero at once (FIRRTL
/// spec, "Memories").
pub fn idle_reads_show_zero()
    ensures { OfShown ShowsZero }
{}

/// With a latency a port shows the word of its pipe (FIRRTL spec, "Memories").
pub fn pipes_show_their_word()
    ensures { OfShown ShowsPipe }
{}

/// The pipe of a port that is not enabled, that writes, or that has an address past the depth, takes zero at an
/// edge (FIRRTL spec, "Memories").
pub fn idle_reads_pipe_zero()
    ensures { OfPipes PipesZero }
{}

/// Where old data is read under a write, or the text leaves it open, a pipe takes at an edge the word before
/// all writes of the tick (FIRRTL spec, "Memories").
pub fn pipes_take_the_old_word()
    ensures { OfPipes PipesTheOldWord }
{}

/// Where new data is read under a write, it takes the word behind all writes of all ports at the tick, which is
/// the word of the next state (FIRRTL spec, "Memories").
pub fn pipes_take_the_new_word()
    ensures { OfPipes PipesTheNewWord }
{}

/// A pipe whose port's clock has no edge, or is none, keeps its word (FIRRTL spec, "Memories", "Clock Type").
pub fn pipes_keep_their_word()
    ensures { OfPipes PipeKeeps }
{}

/// At an edge, with the enable, the mask and a readwriter's mode 1, the word at a port's address becomes the
/// data given, if no later port writes there (FIRRTL spec, "Memories").
pub fn memories_take_the_last_write()
    ensures { OfWrites TakesTheLastWrite }
{}

/// Of two writes to one address at one tick that of the port that stands later in the text wins, of writers and
/// readwriters in any order (FIRRTL spec, "Memories").
pub fn memories_take_the_later_write()
    ensures { OfWrites TakesTheLaterWrite }
{}

/// A word at an address to which no port writes at the tick stays (FIRRTL spec, "Memories").
pub fn memories_keep_what_is_unwritten()
    ensures { OfWrites StaysUnwritten }
{}

/// A port whose clock has no edge, or is none, writes nothing, and a write past the depth does nothing (FIRRTL
/// spec, "Memories", "Clock Type").
pub fn memories_keep_without_edge_or_past_depth()
    ensures { OfWrites StaysWithoutEdgeOrPastDepth }
{}

/// A leaf of the data whose mask is 0 keeps its word, while another one of the same write takes its data (FIRRTL
/// spec, "Memories").
pub fn memories_keep_masked_leaves()
    ensures { OfWrites MaskedKeeps }
{}

/// Over any number of ticks without an edge or an asynchronous reset a register shows the word that it had
/// (FIRRTL spec, "Registers").
pub fn registers_hold_until_an_edge()
    ensures { HoldsUntilEdge }
{}

/// A word that is written is read at its address, after any number of ticks at which no port writes there (FIRRTL
/// spec, "Memories").
pub fn writes_are_read_until_written_again()
    ensures { IsReadUntilWrittenAgain }
{}

/// With a latency, and old data read under a write, a port shows at a tick the word that stood at its address at
/// the tick before, where its clock had an edge (FIRRTL spec, "Memories").
pub fn pipes_are_read_a_tick_later()
    ensures { ReadsATickLater }
{}
