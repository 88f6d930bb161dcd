//! Laws about the definitions, each the contract of a function that does nothing.

ghost use Rattle.fir_words.specs.working.Laws.{NumberIsDecimal, PlainNameIsTaken, PlainNamesAreTaken, PlainVerilogIsTaken, TakenIsCommand};

/// Words are a command exactly where clap takes them and the order, where one is given, is a number.
pub fn taken_is_command()
    ensures { TakenIsCommand }
{}

/// A number below 2^32 is spelled in decimal digits, with no zero before others, and in no other way.
pub fn number_is_decimal()
    ensures { NumberIsDecimal }
{}

/// A command of one file takes any name that does not begin with a dash, and asks for that file.
pub fn plain_name_is_taken()
    ensures { PlainNameIsTaken }
{}

/// `sim` takes any two names that do not begin with a dash, with `--state` in any place.
pub fn plain_names_are_taken()
    ensures { PlainNamesAreTaken }
{}

/// `vsim` takes any two names that do not begin with a dash, with `--state` and an order in any places.
pub fn plain_verilog_is_taken()
    ensures { PlainVerilogIsTaken }
{}
