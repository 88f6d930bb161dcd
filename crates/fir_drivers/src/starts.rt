//! What a leaf goes on with before the statements.

ghost use Rattle.std.specs.Prelude.{◌≡◌, IfOk, length};
ghost use Rattle.fir_driven.specs.working.Covering.{flag_at};
ghost use Rattle.fir_merge.specs.working.Bounds.{Grown};
ghost use Rattle.fir_merge.specs.working.NodeTerms.{IsBelow};
ghost use Rattle.fir_drivers.specs.working.Drivers.{StartStands};

use crate::drives::{type_at, zero_of};
use fir_ast::LeafId;
use fir_base::MemoryOut;
use fir_bits::NumTy;
use fir_merge::{Bound, NetNodes};
use fir_net::Read;

/// A register goes on with what it shows, and another leaf with zero.
pub fn start_of(
    net: &mut NetNodes,
    types: &[NumTy],
    registers: &[bool],
    leaf: usize,
    nothing: &Bound,
) -> Result<Bound, MemoryOut>
    requires { IsBelow (length net.old) nothing.now.read }
    ensures grown { IfOk result (Grown net.old net.new) }
    ensures stands { IfOk result (StartStands types.now registers.now net.new leaf) }
{
    if is_register(registers, leaf) {
        return Ok(Bound {
            read: Read::Leaf(LeafId::new(leaf)),
            ty: type_at(types, leaf),
        });
    }
    zero_of(net, types, leaf, nothing)
}

fn is_register(registers: &[bool], leaf: usize) -> bool
    ensures { result ≡ flag_at registers.now leaf }
{
    leaf < registers.len() && registers[leaf]
}
