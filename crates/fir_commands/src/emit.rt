//! The command `emit`: the Verilog of the circuit in a file.

ghost use Rattle.std.specs.Prelude.{◌≤◌, length};

use crate::text_command::TextCommand;
use fir_ast::FirFault;
use fir_base::Refused;
use fir_compile::verilog_of;
use std::alloc::Global;

/// Writes the Verilog of the circuit that the bytes spell.
#[derive(Drop)]
pub struct Emit;

impl TextCommand for Emit {
    ghost use Rattle.fir_commands.specs.Emit.{emit_meaning};

    ghost says = { emit_meaning };

    fn text_of(&self, alloc: Global, bytes: &[u8]) -> Result<Vec<u8>, Refused<FirFault>> {
        verilog_of(alloc, bytes)
    }
}
