//! What the words of the command line ask for.

ghost use Rattle.std.specs.Prelude.{◌≡◌, IfOk, option_and_then, option_map};
ghost use Rattle.clap.specs.Words.{first_of, found_of, rows_of, subcommand_rows_of};
ghost use Rattle.fir_words.specs.Commands.{asked_by, command_in, command_found, is_set, order_in, simulation_in, verilog_simulation_in};
ghost use Rattle.fir_words.specs.working.Commanded.{commanded, simulated, verilog_simulated};

use crate::command_set::command_set;
use crate::number::number_of;
use clap::ArgMatches;
use clap::error::ErrorKind;
use fir_base::MemoryOut;
use std::alloc::Global;

/// A simulation that the words ask for.
#[derive(Clone, Copy)]
pub struct Simulation<'a> {
    /// The name of the circuit's file.
    pub circuit: &'a str,
    /// The name of the trace's file.
    pub trace: &'a str,
    /// Whether the state is shown.
    pub with_state: bool,
}

/// A simulation of a Verilog text that the words ask for.
#[derive(Clone, Copy)]
pub struct VerilogSimulation<'a> {
    /// The name of the text's file.
    pub verilog: &'a str,
    /// The name of the trace's file.
    pub trace: &'a str,
    /// Whether the state is shown.
    pub with_state: bool,
    /// The number of an order of the processes, where one is given.
    pub order: Option<u32>,
}

/// What the words ask for.
#[derive(Clone, Copy)]
pub enum Command<'a> {
    /// Whether the circuit in the file of this name is valid.
    Check(&'a str),
    /// The Verilog of the circuit in the file of this name.
    Emit(&'a str),
    /// The lines of a circuit on a trace.
    Sim(Simulation<'a>),
    /// The lines of a Verilog text on a trace.
    Vsim(VerilogSimulation<'a>),
}

/// What the words ask for, and `None` where they are not taken. `words[0]` is the program's name.
pub fn command_of(alloc: Global, words: &[String]) -> Result<Option<Command<'_>>, MemoryOut>
    ensures { IfOk result (λ c. option_map commanded c ≡ asked_by words.now) }
{
    let commands = command_set(alloc)?;
    match commands.try_get_matches_from(words) {
        Ok(matches) => Ok(command_found(&matches)),
        Err(error) => {
            if error.kind() == ErrorKind::OutOfMemory {
                Err(MemoryOut)
            } else {
                Ok(None)
            }
        }
    }
}

fn command_found<'a>(matches: &ArgMatches<'a>) -> Option<Command<'a>>
    ensures { option_map commanded result ≡ command_found (subcommand_rows_of matches.now) }
{
    match matches.subcommand() {
        Some((name, found)) => command_in(name, found),
        None => None,
    }
}

fn command_in<'a>(name: &str, found: &ArgMatches<'a>) -> Option<Command<'a>>
    ensures { option_map commanded result ≡ command_in name.now (rows_of (found_of found.now)) }
{
    if name == "check" {
        Some(Command::Check(value_in(found, "file")?))
    } else if name == "emit" {
        Some(Command::Emit(value_in(found, "file")?))
    } else if name == "sim" {
        Some(Command::Sim(simulation_in(found)?))
    } else if name == "vsim" {
        Some(Command::Vsim(verilog_simulation_in(found)?))
    } else {
        None
    }
}

fn simulation_in<'a>(found: &ArgMatches<'a>) -> Option<Simulation<'a>>
    ensures { option_map simulated result ≡ simulation_in (rows_of (found_of found.now)) }
{
    Some(Simulation {
        circuit: value_in(found, "circuit")?,
        trace: value_in(found, "trace")?,
        with_state: is_set(found, "state"),
    })
}

fn verilog_simulation_in<'a>(found: &ArgMatches<'a>) -> Option<VerilogSimulation<'a>>
    ensures { option_map verilog_simulated result ≡ verilog_simulation_in (rows_of (found_of found.now)) }
{
    Some(VerilogSimulation {
        verilog: value_in(found, "file")?,
        trace: value_in(found, "trace")?,
        with_state: is_set(found, "state"),
        order: order_in(found)?,
    })
}

// The order that is given, if any, and `None` where what is given is no number.
fn order_in(found: &ArgMatches<'_>) -> Option<Option<u32>>
    ensures { result ≡ order_in (rows_of (found_of found.now)) }
{
    match value_in(found, "order") {
        Some(text) => Some(Some(number_of(text)?)),
        None => Some(None),
    }
}

fn value_in<'a>(found: &ArgMatches<'a>, id: &str) -> Option<&'a str>
    ensures { option_map (λ s. s.now) result ≡ first_of id.now (rows_of (found_of found.now)) }
{
    found.get_str(id)
}

fn is_set(found: &ArgMatches<'_>, flag: &str) -> bool
    ensures { result ≡ is_set flag.now (rows_of (found_of found.now)) }
{
    found.get_one::<bool>(flag).unwrap_or(false)
}
