//! The first init that is no constant.

ghost use Rattle.std.specs.Prelude.{IfOk};
ghost use Rattle.fir_net.specs.working.IsNet.{IsNet};
ghost use Rattle.fir_inits.specs.working.Searched.{HasEnd};
ghost use Rattle.fir_inits.specs.working.ShowsInit.{ShowsInit, TellsInit};

use crate::registers::async_registers;
use crate::search::Search;
use fir_ast::FirFault;
use fir_base::MemoryOut;
use fir_loop::paths_of;
use fir_net::FlatNet;
use std::alloc::Global;

/// E27 of the first register, by its place and then by its number, whose asynchronous reset gives it an init that
/// reaches an input or a leaf that shows state, with a shortest walk from a leaf that the init reads. It takes time in
/// proportion to the net, and no recursion.
pub fn init_fault(alloc: Global, net: &FlatNet) -> Result<Option<FirFault>, MemoryOut>
    requires { IsNet net.now }
    ensures { IfOk result (TellsInit net.now) }
{
    let registers = async_registers(alloc, net)?;
    if registers.is_empty() {
        return Ok(None);
    }
    let mut search = Search::new(alloc, net)?;
    for register in &registers {
        if search.finds(net, *register)? {
            return Ok(Some(fault_of(alloc, net, &search)?));
        }
    }
    Ok(None)
}

/// E27 at the register from whose init the search came to its end.
fn fault_of(alloc: Global, net: &FlatNet, search: &Search) -> Result<FirFault, MemoryOut>
    requires { HasEnd net.now search.now }
    ensures { IfOk result (ShowsInit net.now) }
{
    let (place, walk) = search.walk(alloc, net)?;
    let names = paths_of(alloc, net, walk.as_slice())?;
    Ok(FirFault::AsyncInit(place, names))
}
