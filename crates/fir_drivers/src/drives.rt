//! A leaf is driven, or each that indices may pick (FIRRTL spec, "Connects", "Invalidates", "Sub-accesses").

ghost use Rattle.std.specs.Prelude.{◌≡◌, ℕ, IfOk, List, OnOk, length};
ghost use Rattle.fir_leaf.specs.declared.statement.LeafStmt.TheVariants as code;
ghost use Rattle.fir_leaf.specs.working.NodeBlocks.{statement_in};
ghost use Rattle.fir_leaf.specs.working.Nodes.{Entry, entry_of, node_term, term_in};
ghost use Rattle.fir_merge.specs.working.Bounds.{Grown, types_in};
ghost use Rattle.fir_merge.specs.working.Elements.{ElementsBelow};
ghost use Rattle.fir_merge.specs.working.Entries.{BoundsBelow};
ghost use Rattle.fir_merge.specs.working.NodeTerms.{IsBelow};
ghost use Rattle.fir_drivers.specs.working.Walks.{DrivesLeaves, GivenStands, Goes, IsSetBelow, WritesElements, ZeroStandsAt, is_zeros};

use crate::setting::Setting;
use crate::slots::{set_slot, slot_at};
use fir_base::MemoryOut;
use fir_bits::{NO_TYPE, NumTy};
use fir_leaf::{Drive, Node};
use fir_merge::{
    Bound, Element, NetNodes, add_choice, add_elements, add_zero, indices_at, value_at,
};
use std::alloc::Global;

/// The leaf goes on with what is given; behind indices each that they may pick goes on with the choice between that
/// and what it had.
pub fn drive_leaves(
    alloc: Global,
    setting: &Setting,
    net: &mut NetNodes,
    slots: &mut Vec<Bound>,
    drive: &Drive,
) -> Result<(), MemoryOut>
    requires setting { IsSetBelow (length net.old) setting.now }
    requires slots { BoundsBelow (length net.old) slots.old.items }
    ensures goes { OnOk result (Goes net.old net.new slots.old.items slots.new.items) }
    ensures drives { OnOk result (DrivesLeaves setting.now (statement_in setting.now.nodes.now (code.Drive drive.now)) net.old net.new slots.old.items slots.new.items) }
{
    let given = given(setting, net, drive)?;
    let indices = indices_at(alloc, setting.nodes, setting.bounds, drive.picks)?;
    if indices.is_empty() {
        set_slot(slots, drive.leaf, given);
        return Ok(());
    }
    let elements = add_elements(alloc, net, &indices)?;
    write_elements(net, slots, drive.leaf, &elements, &given, setting.nothing)
}

/// What a statement gives: the value of its node, and of `is invalid` the zero of the leaf's type.
fn given(setting: &Setting, net: &mut NetNodes, drive: &Drive) -> Result<Bound, MemoryOut>
    requires { IsSetBelow (length net.old) setting.now }
    ensures grown { IfOk result (Grown net.old net.new) }
    ensures stands { IfOk result (GivenStands setting.now net.old net.new drive.now) }
{
    if is_zeros(setting.nodes, drive.given) {
        return zero_of(net, setting.types, drive.leaf, setting.nothing);
    }
    Ok(value_at(setting.nodes, setting.bounds, setting.nothing, drive.given))
}

/// Whether the node stands for what `is invalid` gives.
fn is_zeros(nodes: &[Node], place: usize) -> bool
    ensures { result ≡ is_zeros (node_term nodes.now place) }
{
    match nodes.get(place) {
        Some(node) => gives_zeros(node),
        None => true,
    }
}

/// An index has no value, and counts as such.
fn gives_zeros(node: &Node) -> bool
    ensures { (known : List Entry) → result ≡ is_zeros (term_in (entry_of known node.now)) }
{
    matches!(node, Node::Zeros | Node::Pick(_))
}

/// Adds the zero of a leaf's type.
pub fn zero_of(
    net: &mut NetNodes,
    types: &[NumTy],
    leaf: usize,
    nothing: &Bound,
) -> Result<Bound, MemoryOut>
    requires { IsBelow (length net.old) nothing.now.read }
    ensures grown { IfOk result (Grown net.old net.new) }
    ensures stands { IfOk result (ZeroStandsAt net.new (types_in types.now leaf)) }
{
    let ty = type_at(types, leaf);
    if ty.width > 128 {
        return Ok(*nothing);
    }
    add_zero(net, ty)
}

/// The type of a leaf; what is none has no bits.
pub fn type_at(types: &[NumTy], leaf: usize) -> NumTy
    ensures { result ≡ types_in types.now leaf }
{
    match types.get(leaf) {
        Some(ty) => *ty,
        None => NO_TYPE,
    }
}

/// Each of the elements of a leaf goes on with the choice between what is given, where its condition is met, and what
/// it had.
fn write_elements(
    net: &mut NetNodes,
    slots: &mut Vec<Bound>,
    leaf: usize,
    elements: &[Element],
    given: &Bound,
    nothing: &Bound,
) -> Result<(), MemoryOut>
    requires slots { BoundsBelow (length net.old) slots.old.items }
    requires elements { ElementsBelow (length net.old) elements.now }
    requires given { IsBelow (length net.old) given.now.read }
    requires nothing { IsBelow (length net.old) nothing.now.read }
    ensures goes { OnOk result (Goes net.old net.new slots.old.items slots.new.items) }
    ensures writes { OnOk result (WritesElements net.old net.new slots.old.items slots.new.items leaf elements.now given.now) }
{
    for element in elements {
        let number = leaf.checked_add(element.offset).ok_or(MemoryOut)?;
        let before = slot_at(slots, number, nothing);
        let chosen = add_choice(net, element.condition, *given, before)?;
        set_slot(slots, number, chosen);
    }
    Ok(())
}
