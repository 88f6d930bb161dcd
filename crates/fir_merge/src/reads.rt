//! Nodes of what is read behind dynamic indices (FIRRTL spec, "Sub-accesses").

ghost use Rattle.std.specs.Prelude.{◌≡◌, ◌≤◌, IfOk, length};
ghost use Rattle.fir_merge.specs.working.Bounds.{Grown, types_in};
ghost use Rattle.fir_merge.specs.working.Elements.{ElementsBelow};
ghost use Rattle.fir_merge.specs.working.Entries.{IndicesBelow};
ghost use Rattle.fir_merge.specs.working.Reads.{AbsentStands, AnyStands, ChosenStands, FirstMetStands, ReadStands, UnpickedStands};
ghost use Rattle.fir_merge.specs.working.NodeTerms.{IsBelow};

use crate::bound::Bound;
use crate::elements::{Element, add_elements};
use crate::index::Index;
use crate::net_nodes::NetNodes;
use crate::values::{add_choice, add_mux, add_operation, add_zero};
use fir_ast::LeafId;
use fir_base::MemoryOut;
use fir_bits::{NO_TYPE, NumTy, PrimOp};
use fir_net::Read;
use std::alloc::Global;

/// The type of a leaf; of one that is not there, that of no bits.
fn type_at(types: &[NumTy], leaf: usize) -> NumTy
    ensures { result ≡ types_in types.now leaf }
{
    match types.get(leaf) {
        Some(ty) => *ty,
        None => NO_TYPE,
    }
}

/// Adds what is read of a leaf, or behind indices of the one that they pick, counted from the leaf. Where they pick
/// none it is zero.
pub fn add_read(
    alloc: Global,
    net: &mut NetNodes,
    types: &[NumTy],
    leaf: usize,
    indices: &[Index],
    nothing: &Bound,
) -> Result<Bound, MemoryOut>
    requires indices { IndicesBelow (length net.old) indices.now }
    requires nothing { IsBelow (length net.old) nothing.now.read }
    ensures grown { IfOk result (Grown net.old net.new) }
    ensures stands { IfOk result (ReadStands net.old net.new types.now leaf indices.now nothing.now) }
{
    let ty = type_at(types, leaf);
    if indices.is_empty() {
        return Ok(Bound {
            read: Read::Leaf(LeafId::new(leaf)),
            ty,
        });
    }
    if ty.width > 128 {
        return Ok(*nothing);
    }
    let elements = add_elements(alloc, net, indices)?;
    let zero = add_zero(net, ty)?;
    let other = add_unpicked(alloc, net, indices, &elements, &zero)?;
    add_first_met(net, ty, leaf, &elements, &other)
}

/// Adds zero of a type, for a leaf that is not there behind these indices.
pub fn add_absent(
    alloc: Global,
    net: &mut NetNodes,
    signed: bool,
    width: u128,
    indices: &[Index],
    nothing: &Bound,
) -> Result<Bound, MemoryOut>
    requires indices { IndicesBelow (length net.old) indices.now }
    requires nothing { IsBelow (length net.old) nothing.now.read }
    ensures grown { IfOk result (Grown net.old net.new) }
    ensures stands { IfOk result (AbsentStands net.old net.new signed width indices.now nothing.now) }
{
    if width > 128 {
        return Ok(*nothing);
    }
    let ty = NumTy {
        signed,
        width: width as u32,
    };
    let zero = add_zero(net, ty)?;
    Ok(add_chosen(alloc, net, indices, &zero)?)
}

/// Adds what is read where no element meets its condition: zero, which hangs on the indices where there is no element.
fn add_unpicked(
    alloc: Global,
    net: &mut NetNodes,
    indices: &[Index],
    elements: &[Element],
    zero: &Bound,
) -> Result<Bound, MemoryOut>
    requires indices { IndicesBelow (length net.old) indices.now }
    requires zero { IsBelow (length net.old) zero.now.read }
    ensures grown { IfOk result (Grown net.old net.new) }
    ensures stands { IfOk result (UnpickedStands net.old net.new indices.now elements.now zero.now) }
{
    match elements {
        [] => Ok(add_chosen(alloc, net, indices, zero)?),
        [_, ..] => Ok(*zero),
    }
}

/// Adds a choice between equal values for each index, from the first on, so that what is read hangs on the indices.
fn add_chosen(
    alloc: Global,
    net: &mut NetNodes,
    indices: &[Index],
    value: &Bound,
) -> Result<Bound, MemoryOut>
    requires indices { IndicesBelow (length net.old) indices.now }
    requires value { IsBelow (length net.old) value.now.read }
    ensures grown { IfOk result (Grown net.old net.new) }
    ensures stands { IfOk result (ChosenStands net.old net.new indices.now value.now) }
{
    match indices {
        [] => Ok(*value),
        [index, before @ ..] => {
            let chosen = add_chosen(alloc, net, before, value)?;
            let any = add_any(alloc, net, index)?;
            add_choice(net, any, chosen, *value)
        }
    }
}

/// Adds whether any bit of the index is 1.
fn add_any(alloc: Global, net: &mut NetNodes, index: &Index) -> Result<Bound, MemoryOut>
    requires { IsBelow (length net.old) index.now.bound.read }
    ensures grown { IfOk result (Grown net.old net.new) }
    ensures stands { IfOk result (AnyStands net.old net.new index.now) }
{
    Ok(add_operation(alloc, net, PrimOp::Orr, &[index.bound], &[])?)
}

/// Adds the leaf of the first element that meets its condition, and where none does the other value.
fn add_first_met(
    net: &mut NetNodes,
    ty: NumTy,
    leaf: usize,
    elements: &[Element],
    other: &Bound,
) -> Result<Bound, MemoryOut>
    requires elements { ElementsBelow (length net.old) elements.now }
    requires other { IsBelow (length net.old) other.now.read }
    ensures grown { IfOk result (Grown net.old net.new) }
    ensures stands { IfOk result (FirstMetStands net.old net.new ty leaf elements.now other.now) }
{
    let mut met = *other;
    let mut left = elements.len();
    while left > 0 {
        left -= 1;
        let element = elements[left];
        let number = leaf.checked_add(element.offset).ok_or(MemoryOut)?;
        met = add_mux(
            net,
            element.condition.read,
            Read::Leaf(LeafId::new(number)),
            met.read,
            ty,
        )?;
    }
    Ok(met)
}
