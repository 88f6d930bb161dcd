//! From the bytes of a text to its tree.

ghost use Rattle.std.specs.Prelude.{◌≤◌, length};
ghost use Rattle.ver_read.specs.working.Checked.{Reads, TreeChecked};

use fir_base::Refused;
use std::alloc::Global;
use ver_ast::Verilog;
use ver_check::{check, faultless_is_valid};
use ver_fault::VerFault;
use ver_lex::lex;
use ver_loop::check_loops;
use ver_parse::parse;

/// The valid tree that the bytes spell, with the places of its tokens as lines and columns from 1 (IEEE 1364-2005, cut to
/// the subset). Else the first fault: of the text (V01, V02, V07); in the tree, in the order of the text, a name that is
/// not declared (V03), what does not fit (V04), or what is declared or driven twice (V05); a net that nothing drives
/// (V08); a closed walk (V06). Only want of memory is free.
pub fn read_verilog(alloc: Global, bytes: &[u8]) -> Result<Verilog, Refused<VerFault>>
    requires { length bytes.now ≤ 16777216 }
    ensures { Reads bytes.now result }
{
    faultless_is_valid();
    let tokens = lex(alloc, bytes)?;
    let tree = parse(alloc, &tokens)?;
    match check_tree(alloc, &tree) {
        Ok(()) => Ok(tree),
        Err(refused) => Err(refused),
    }
}

/// Refuses a tree for its first fault.
fn check_tree(alloc: Global, tree: &Verilog) -> Result<(), Refused<VerFault>>
    ensures { TreeChecked tree.now result }
{
    check(alloc, tree)?;
    check_loops(alloc, tree)
}
