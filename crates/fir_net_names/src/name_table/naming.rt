//! From a net to the table of its names.

ghost use Rattle.std.specs.Prelude.{IfOk};
ghost use Rattle.std.specs.List.{AllByRecursion};
ghost use Rattle.fir_base.specs.Lists.{Distinct};
ghost use Rattle.ver_words.specs.Names.{IsName};
ghost use Rattle.fir_net.specs.working.IsNet.{IsNet};
ghost use Rattle.fir_net.specs.working.WordNames.{HasWordNames};
ghost use Rattle.fir_net_names.specs.working.IsTable.{IsTable};
ghost use Rattle.fir_net_names.specs.working.TableNames.{table_names};

use crate::array_names::array_names;
use crate::leaf_names::{LeafNames, leaf_names};
use crate::name_table::NameTable;
use fir_base::MemoryOut;
use fir_net::FlatNet;
use std::alloc::Global;
use ver_words::module_name;

/// The names of the net: the ports in their order, then the words of the state in theirs and then the arrays in
/// theirs take their base names, or the first free of that with `_0`, `_1` and so on behind it. No two are the
/// same, and none is reserved (IEEE 1364-2005, 3.7). Only memory can be wanting.
pub fn names(alloc: Global, net: &FlatNet) -> Result<NameTable, MemoryOut>
    requires whole { IsNet net.now }
    requires words { HasWordNames net.now }
    ensures table { IfOk result (λ t. IsTable net.now t) }
    ensures distinct { IfOk result (λ t. Distinct (table_names t)) }
    ensures spelled { IfOk result (λ t. AllByRecursion IsName (table_names t)) }
    ensures module_spelled { IfOk result (λ t. IsName t.circuit) }
{
    let circuit = module_name(alloc, &net.name)?;
    let LeafNames { names, mut taken } = leaf_names(alloc, net)?;
    let arrays = array_names(alloc, &mut taken, net)?;
    Ok(NameTable {
        circuit,
        leaves: names,
        arrays,
        taken: taken.names,
    })
}
