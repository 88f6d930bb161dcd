//! The one call that the program makes.

ghost use Rattle.std.specs.Prelude.{◌≡◌, Some};
ghost use Rattle.fir_cli.specs.Outside.{outside, code};
ghost use Rattle.fir_words.specs.Commands.{vsim};
ghost use Rattle.fir_words.specs.working.Commanded.{commanded, verilog_simulated};
ghost use Rattle.fir_driver.specs.Program.{MayAsk, MayAskFor, Does, DoesFor, Answers};

use fir_base::MemoryOut;
use fir_cli::{MEMORY_LINE, Status, USAGE_LINE, say};
use fir_commands::{Check, Emit, Sim, put_text_of};
use fir_emitted::emitted_prints_the_same;
use fir_io::{Files, Sink};
use fir_parse::laws::{has_tree_or_fault, spells_one_tree};
use fir_words::{Command, VerilogSimulation, command_of};
use std::alloc::Global;
use trace_command::simulate;
use trace_text::laws::{
    shows_one_bad_line, spelled_is_not_bad, spells_one_trace, trace_is_spelled_or_bad,
};
use ver_ast::spells_one_tree as spells_one_verilog_tree;
use ver_command::Vsim;
use ver_read::laws::refused_is_not_valid;
use ver_runner::laws::lacked_does_not_run;

/// Does what the words say, and gives the exit status. `words[0]` is the program's name.
pub fn run<F: Files, S: Sink, T: Sink>(
    alloc: Global,
    words: &Vec<String>,
    files: &mut F,
    out: &mut S,
    err: &mut T,
) -> u8
    requires { MayAsk words.now.items (F.seen files.old).may }
    ensures headline { (s : _) × (result ≡ code s) × Does words.now.items (outside (F.seen files.old) (S.seen out.old) (T.seen err.old)) (outside (F.seen files.new) (S.seen out.new) (T.seen err.new)) s }
    ensures complete { Answers words.now.items (outside (F.seen files.old) (S.seen out.old) (T.seen err.old)) (outside (F.seen files.new) (S.seen out.new) (T.seen err.new)) result }
{
    spells_one_tree();
    has_tree_or_fault();
    spelled_is_not_bad();
    spells_one_trace();
    shows_one_bad_line();
    spells_one_verilog_tree();
    refused_is_not_valid();
    lacked_does_not_run();
    ending(alloc, words.as_slice(), files, out, err).code()
}

fn ending<F: Files, S: Sink, T: Sink>(
    alloc: Global,
    words: &[String],
    files: &mut F,
    out: &mut S,
    err: &mut T,
) -> Status
    requires { MayAsk words.now (F.seen files.old).may }
    ensures { Does words.now (outside (F.seen files.old) (S.seen out.old) (T.seen err.old)) (outside (F.seen files.new) (S.seen out.new) (T.seen err.new)) result }
{
    match command_of(alloc, words) {
        Ok(Some(command)) => do_command(alloc, &command, files, out, err),
        Ok(None) => say(err, USAGE_LINE, Status::Usage),
        Err(MemoryOut) => say(err, MEMORY_LINE, Status::NoMemory),
    }
}

fn do_command<F: Files, S: Sink, T: Sink>(
    alloc: Global,
    command: &Command,
    files: &mut F,
    out: &mut S,
    err: &mut T,
) -> Status
    requires { MayAskFor (Some (commanded command.now)) (F.seen files.old).may }
    ensures { DoesFor (Some (commanded command.now)) (outside (F.seen files.old) (S.seen out.old) (T.seen err.old)) (outside (F.seen files.new) (S.seen out.new) (T.seen err.new)) result }
{
    match command {
        Command::Check(name) => put_text_of(alloc, &Check, name, files, out, err),
        Command::Emit(name) => put_text_of(alloc, &Emit, name, files, out, err),
        Command::Sim(words) => {
            let sim = Sim {
                with_state: words.with_state,
            };
            simulate(alloc, &sim, words.circuit, words.trace, files, out, err)
        }
        Command::Vsim(words) => simulate_verilog(alloc, words, files, out, err),
    }
}

/// Runs a Verilog text on a trace. What is emitted of a circuit prints what the circuit does.
fn simulate_verilog<F: Files, S: Sink, T: Sink>(
    alloc: Global,
    words: &VerilogSimulation,
    files: &mut F,
    out: &mut S,
    err: &mut T,
) -> Status
    requires { MayAskFor (Some (vsim (verilog_simulated words.now))) (F.seen files.old).may }
    ensures { DoesFor (Some (vsim (verilog_simulated words.now))) (outside (F.seen files.old) (S.seen out.old) (T.seen err.old)) (outside (F.seen files.new) (S.seen out.new) (T.seen err.new)) result }
{
    emitted_prints_the_same();
    refused_is_not_valid();
    lacked_does_not_run();
    trace_is_spelled_or_bad();
    let vsim = Vsim {
        with_state: words.with_state,
        order: words.order,
    };
    simulate(alloc, &vsim, words.verilog, words.trace, files, out, err)
}
