//! The commands of the program, as clap takes them.

ghost use Rattle.std.specs.Prelude.{◌≡◌, ◌∷◌, [], IfOk, codes, false};
ghost use Rattle.clap.specs.Words.{app_of, rule_of, shape_of};
ghost use Rattle.clap.specs.declared.builder.command.Command.TheViews.{out-Command};
ghost use Rattle.fir_words.specs.Commands.{command_set, command_with, flag, name_of_file, option_with_value};

use clap::{Arg, ArgAction, Command};
use std::alloc::{AllocError, Global};

/// Each command and its arguments. A command is required, and no word asks for help.
pub(crate) fn command_set<'a>(alloc: Global) -> Result<Command<'a>, AllocError>
    ensures { IfOk result (λ c. app_of c ≡ command_set) }
{
    let check = text_command(alloc, "check")?;
    let emit = text_command(alloc, "emit")?;
    let sim = simulation_command(alloc)?;
    let vsim = verilog_simulation_command(alloc)?;
    Command::new(alloc, "firc")
        .subcommand_required(true)
        .disable_help_flag(true)
        .disable_help_subcommand(true)
        .subcommand(check)?
        .subcommand(emit)?
        .subcommand(sim)?
        .subcommand(vsim)
}

// A command that reads one file.
fn text_command<'a>(alloc: Global, name: &'a str) -> Result<Command<'a>, AllocError>
    ensures shape { IfOk result (λ c. shape_of c ≡ command_with name.entry.now (name_of_file (codes "file") ∷ [])) }
    ensures local { IfOk result (λ c. (out-Command c).has_globals ≡ false) }
{
    Command::new(alloc, name).arg(name_of_file(alloc, "file"))
}

fn simulation_command<'a>(alloc: Global) -> Result<Command<'a>, AllocError>
    ensures shape { IfOk result (λ c. shape_of c ≡ command_with (codes "sim") (name_of_file (codes "circuit") ∷ name_of_file (codes "trace") ∷ flag (codes "state") ∷ [])) }
    ensures local { IfOk result (λ c. (out-Command c).has_globals ≡ false) }
{
    Command::new(alloc, "sim")
        .arg(name_of_file(alloc, "circuit"))?
        .arg(name_of_file(alloc, "trace"))?
        .arg(flag(alloc, "state"))
}

fn verilog_simulation_command<'a>(alloc: Global) -> Result<Command<'a>, AllocError>
    ensures shape { IfOk result (λ c. shape_of c ≡ command_with (codes "vsim") (name_of_file (codes "file") ∷ name_of_file (codes "trace") ∷ flag (codes "state") ∷ option_with_value (codes "order") ∷ [])) }
    ensures local { IfOk result (λ c. (out-Command c).has_globals ≡ false) }
{
    Command::new(alloc, "vsim")
        .arg(name_of_file(alloc, "file"))?
        .arg(name_of_file(alloc, "trace"))?
        .arg(flag(alloc, "state"))?
        .arg(option_with_value(alloc, "order"))
}

// The name of a file, which has to be there.
fn name_of_file<'a>(alloc: Global, id: &'a str) -> Arg<'a>
    ensures rule { rule_of result ≡ name_of_file id.entry.now }
    ensures local { result.global ≡ false }
{
    Arg::new(alloc, id).required(true)
}

// The word `--id`, which need not be there.
fn flag<'a>(alloc: Global, id: &'a str) -> Arg<'a>
    ensures rule { rule_of result ≡ flag id.entry.now }
    ensures local { result.global ≡ false }
{
    Arg::new(alloc, id).long(id).action(ArgAction::SetTrue)
}

// The word `--id` with a value, which need not be there.
fn option_with_value<'a>(alloc: Global, id: &'a str) -> Arg<'a>
    ensures rule { rule_of result ≡ option_with_value id.entry.now }
    ensures local { result.global ≡ false }
{
    Arg::new(alloc, id).long(id).action(ArgAction::Set)
}
