//! What drives each leaf of a module.

ghost use Rattle.std.specs.Prelude.{IfOk, length};
ghost use Rattle.fir_leaf.specs.working.NodeBlocks.{block_in};
ghost use Rattle.fir_merge.specs.working.Entries.{BoundsBelow};
ghost use Rattle.fir_merge.specs.working.NodeTerms.{Grows, IsBelow};
ghost use Rattle.fir_drivers.specs.working.Drivers.{AreDrivers, StartsStand};

use crate::setting::Setting;
use crate::starts::start_of;
use crate::statements::walk_block;
use crate::targets::target_lists;
use fir_base::MemoryOut;
use fir_bits::{NO_TYPE, NumTy};
use fir_leaf::{LeafStmt, Node};
use fir_merge::{Bound, NetNodes, add_zero};
use std::alloc::Global;

/// Where the value is that drives each leaf of a module, by the types of the leaves, how many whens stand round the
/// declaration of each, and whether it is a register, which without a statement keeps what it shows. The bounds are
/// those of the nodes.
pub fn drivers_of(
    alloc: Global,
    types: &[NumTy],
    depths: &[usize],
    registers: &[bool],
    nodes: &[Node],
    bounds: &[Bound],
    body: &[LeafStmt],
    net: &mut NetNodes,
) -> Result<Vec<Bound>, MemoryOut>
    requires { BoundsBelow (length net.old) bounds.now }
    ensures below { IfOk result (λ ds. Grows net.old net.new × BoundsBelow (length net.new) ds.items) }
    ensures are { IfOk result (λ ds. AreDrivers types.now depths.now registers.now nodes.now bounds.now (block_in nodes.now body.now) net.old net.new ds.items) }
{
    let nothing = add_zero(net, NO_TYPE)?;
    let mut slots = starts(alloc, types, registers, net, &nothing)?;
    let mut lists = target_lists(alloc, depths, nodes, body)?;
    let setting = Setting {
        types,
        depths,
        nodes,
        bounds,
        nothing: &nothing,
    };
    walk_block(body, alloc, &setting, 0, net, &mut slots, &mut lists)?;
    Ok(slots)
}

/// What the leaves go on with before the statements.
fn starts(
    alloc: Global,
    types: &[NumTy],
    registers: &[bool],
    net: &mut NetNodes,
    nothing: &Bound,
) -> Result<Vec<Bound>, MemoryOut>
    requires { IsBelow (length net.old) nothing.now.read }
    ensures below { IfOk result (λ bs. Grows net.old net.new × BoundsBelow (length net.new) bs.items) }
    ensures stand { IfOk result (λ bs. StartsStand types.now registers.now net.new bs.items) }
{
    let mut slots = Vec::new(alloc);
    for leaf in 0..types.len() {
        // In parts, since the proof of the loop is else not told of the type of `read`.
        let Bound { read, ty } = start_of(net, types, registers, leaf, nothing)?;
        slots.push(Bound { read, ty })?;
    }
    Ok(slots)
}
