//! The command `check`: whether the circuit in a file is taken, and what it has in numbers.

ghost use Rattle.std.specs.Prelude.{◌≤◌, length};

use crate::text_command::TextCommand;
use fir_ast::FirFault;
use fir_base::Refused;
use fir_compile::counts_of;
use std::alloc::Global;

/// Writes how many leaves, registers and memories the circuit has that the bytes spell.
#[derive(Drop)]
pub struct Check;

impl TextCommand for Check {
    ghost use Rattle.fir_commands.specs.Check.{check_meaning};

    ghost says = { check_meaning };

    fn text_of(&self, alloc: Global, bytes: &[u8]) -> Result<Vec<u8>, Refused<FirFault>> {
        counts_of(alloc, bytes)
    }
}
