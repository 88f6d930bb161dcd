//! Nodes for the leaves of what is not there, since an index goes into a vector without elements.

ghost use Rattle.std.specs.Prelude.{◌≡◌, [], ◌∷◌, IfOk, OnOk, if◌then◌else◌, length as long, unwrap_or};
ghost use Rattle.fir_leaf.specs.working.Nodes.{Gives, entries, picks_at};
ghost use Rattle.fir_meaning.specs.working.Terms.{Picks, absent as absent_term};
ghost use Rattle.fir_type_table.specs.working.Tables.{member_fields, members_at, shown, shown_fields, type_at, types_of};
ghost use Rattle.fir_types.specs.working.Seen.{found_type};
ghost use Rattle.fir_leaf_pairs.specs.working.TargetNames.{PicksWithin};
ghost use Rattle.fir_ground.specs.working.Absent.{Adds, absent_element_terms, absent_field_terms, absent_terms};

use fir_base::MemoryOut;
use fir_leaf::{Node, add};
use fir_type_table::{Kind, TypeId, TypeTable};
use fir_types::Found;
use std::alloc::Global;

/// A node for each leaf of a type, behind the indices up to a pick.
pub fn read_absent(
    alloc: Global,
    table: &TypeTable,
    nodes: &mut Vec<Node>,
    found: Found,
    picks: Option<usize>,
) -> Result<Vec<usize>, MemoryOut>
    ensures { (ps : Picks) → PicksWithin (long nodes.old.items) picks → picks_at (entries nodes.old.items) picks ≡ ps → IfOk result (λ ids. Gives nodes.old.items nodes.new.items ids.items (absent_terms ps (found_type (types_of table.now) found))) }
{
    let mut ids = Vec::new(alloc);
    add_found(table, found, picks, nodes, &mut ids)?;
    Ok(ids)
}

/// The leaves of what is found.
fn add_found(
    table: &TypeTable,
    found: Found,
    picks: Option<usize>,
    nodes: &mut Vec<Node>,
    ids: &mut Vec<usize>,
) -> Result<(), MemoryOut>
    ensures { (ps : Picks) → PicksWithin (long nodes.old.items) picks → picks_at (entries nodes.old.items) picks ≡ ps → OnOk result (Adds nodes.old.items nodes.new.items ids.old.items ids.new.items (absent_terms ps (found_type (types_of table.now) found))) }
{
    match found {
        Found::Number(signed, width) => add_leaf(signed, width.unwrap_or(0), picks, nodes, ids),
        Found::AsyncReset => add_leaf(false, 1, picks, nodes, ids),
        Found::Type(id, is_bare) => add_type(table, id, is_bare, picks, nodes, ids),
    }
}

/// A leaf of that signedness and of so many bits.
fn add_leaf(
    signed: bool,
    width: u128,
    picks: Option<usize>,
    nodes: &mut Vec<Node>,
    ids: &mut Vec<usize>,
) -> Result<(), MemoryOut>
    ensures { (ps : Picks) → PicksWithin (long nodes.old.items) picks → picks_at (entries nodes.old.items) picks ≡ ps → OnOk result (Adds nodes.old.items nodes.new.items ids.old.items ids.new.items (absent_term (record { signed = signed; width = width }) ps ∷ [])) }
{
    let id = add(nodes, Node::Absent(signed, width, picks))?;
    ids.push(id)?;
    Ok(())
}

/// The leaves of a type of the table, or of that type without its widths.
#[cycle(absent)]
fn add_type(
    table: &TypeTable,
    id: TypeId,
    is_bare: bool,
    picks: Option<usize>,
    nodes: &mut Vec<Node>,
    ids: &mut Vec<usize>,
) -> Result<(), MemoryOut>
    ensures { (ps : Picks) → PicksWithin (long nodes.old.items) picks → picks_at (entries nodes.old.items) picks ≡ ps → OnOk result (Adds nodes.old.items nodes.new.items ids.old.items ids.new.items (absent_terms ps (shown is_bare (type_at (types_of table.now) id.number)))) }
{
    match table.kind(id) {
        Kind::UInt(width) => add_leaf(false, written(width, is_bare), picks, nodes, ids),
        Kind::SInt(width) => add_leaf(true, written(width, is_bare), picks, nodes, ids),
        Kind::Clock => add_leaf(false, 0, picks, nodes, ids),
        Kind::Reset | Kind::AsyncReset => add_leaf(false, 1, picks, nodes, ids),
        Kind::Bundle => add_members(table, id, is_bare, picks, nodes, ids),
        Kind::Vector(element, length) => {
            add_elements(table, element, length, is_bare, picks, nodes, ids)
        }
    }
}

/// The width that is written, or 0.
fn written(width: Option<u128>, is_bare: bool) -> u128
    ensures { result ≡ (if is_bare then 0 else unwrap_or width 0) }
{
    if is_bare { 0 } else { width.unwrap_or(0) }
}

/// Those of the fields of a bundle.
#[cycle(absent)]
fn add_members(
    table: &TypeTable,
    id: TypeId,
    is_bare: bool,
    picks: Option<usize>,
    nodes: &mut Vec<Node>,
    ids: &mut Vec<usize>,
) -> Result<(), MemoryOut>
    ensures { (ps : Picks) → PicksWithin (long nodes.old.items) picks → picks_at (entries nodes.old.items) picks ≡ ps → OnOk result (Adds nodes.old.items nodes.new.items ids.old.items ids.new.items (absent_field_terms ps (shown_fields is_bare (member_fields (types_of table.now) (members_at table.now id.number))))) }
{
    for member in table.members(id) {
        add_type(table, member.ty, is_bare, picks, nodes, ids)?;
    }
    Ok(())
}

/// Those of the elements of a vector. Where an element has none there may be any number of elements, and they
/// are passed at once.
#[cycle(absent)]
fn add_elements(
    table: &TypeTable,
    element: TypeId,
    length: u128,
    is_bare: bool,
    picks: Option<usize>,
    nodes: &mut Vec<Node>,
    ids: &mut Vec<usize>,
) -> Result<(), MemoryOut>
    ensures { (ps : Picks) → PicksWithin (long nodes.old.items) picks → picks_at (entries nodes.old.items) picks ≡ ps → OnOk result (Adds nodes.old.items nodes.new.items ids.old.items ids.new.items (absent_element_terms ps length (shown is_bare (type_at (types_of table.now) element.number)))) }
{
    if table.leaves(element) == 0 {
        return Ok(());
    }
    for _ in 0..length {
        add_type(table, element, is_bare, picks, nodes, ids)?;
    }
    Ok(())
}
