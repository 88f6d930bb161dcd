//! Which leaves a connect and a partial connect pair, by their numbers in the two types (FIRRTL spec,
//! "Connects", "Partial Connects"). One walk goes down both types. Elements of vectors are paired alike, so
//! one of them is walked, and its pairs are moved for the others.

ghost use Rattle.std.specs.Prelude.{◌≡◌, ◌-◌, ◌++◌, ◌<◌, ◌≤◌, ◌^◌, IfOk, OnOk, Bool, drop, length, map, slice_range, true};
ghost use Rattle.fir_ast.specs.Types.{DataType};
ghost use Rattle.fir_meaning.specs.Equivalence.{is_connectable};
ghost use Rattle.fir_meaning.specs.TypeLeaves.{leaf_count, turned};
ghost use Rattle.fir_meaning.specs.working.LeafPairs.{leaf_pairs, partial_leaf_pairs};
ghost use Rattle.fir_type_table.specs.working.Tables.{members_at, types_of};
ghost use Rattle.fir_types.specs.working.Seen.{found_type};
ghost use Rattle.fir_leaf_pairs.specs.working.Pairing.{PairsElements, PairsFields, PairsFound, PairsNamed, PairsNamedFields, PairsParts, Paired, copies, is_ground_type, moved, pair_seen, pairs_of};

use fir_base::MemoryOut;
use fir_type_table::{Kind, Member, TypeId, TypeTable, times};
use fir_types::found::sort;
use fir_types::{Found, Sort};
use std::alloc::Global;

/// A leaf of the left type, one of the right, and whether the right one is driven.
#[derive(Clone, Copy)]
pub struct LeafPair {
    pub left: u64,
    pub right: u64,
    pub flip: bool,
}

/// A type within a whole one, and the number of its first leaf there.
#[derive(Clone, Copy)]
struct Part {
    ty: TypeId,
    first: u64,
}

/// The pairs of a connect of the left type to the right one.
pub fn leaf_pairs(
    alloc: Global,
    table: &TypeTable,
    left: Found,
    right: Found,
) -> Result<Vec<LeafPair>, MemoryOut>
    ensures { leaf_count (found_type (types_of table.now) left) < 2 ^ 64 → leaf_count (found_type (types_of table.now) right) < 2 ^ 64 → is_connectable (found_type (types_of table.now) left) (found_type (types_of table.now) right) ≡ true → IfOk result (λ pairs. map pair_seen pairs.items ≡ leaf_pairs (found_type (types_of table.now) left) (found_type (types_of table.now) right)) }
{
    let mut pairs = Vec::new(alloc);
    pair_found(table, false, left, right, &mut pairs)?;
    Ok(pairs)
}

/// The pairs of a partial connect.
pub fn partial_leaf_pairs(
    alloc: Global,
    table: &TypeTable,
    left: Found,
    right: Found,
) -> Result<Vec<LeafPair>, MemoryOut>
    ensures { leaf_count (found_type (types_of table.now) left) < 2 ^ 64 → leaf_count (found_type (types_of table.now) right) < 2 ^ 64 → IfOk result (λ pairs. map pair_seen pairs.items ≡ partial_leaf_pairs (found_type (types_of table.now) left) (found_type (types_of table.now) right)) }
{
    let mut pairs = Vec::new(alloc);
    pair_found(table, true, left, right, &mut pairs)?;
    Ok(pairs)
}

/// Those of both, where `partial` tells which connect it is. Each walk below puts pairs behind those that
/// are there.
fn pair_found(
    table: &TypeTable,
    partial: bool,
    left: Found,
    right: Found,
    pairs: &mut Vec<LeafPair>,
) -> Result<(), MemoryOut>
    ensures { OnOk result (PairsFound (types_of table.now) partial left right pairs.old.items pairs.new.items) }
{
    match (left, right) {
        (Found::Type(s, _), Found::Type(t, _)) => {
            let one = Part { ty: s, first: 0 };
            let other = Part { ty: t, first: 0 };
            Ok(pair_parts(table, partial, false, one, other, pairs)?)
        }
        (Found::Number(_, _) | Found::AsyncReset, _) => Ok(pair_scalar(table, right, pairs)?),
        (_, Found::Number(_, _) | Found::AsyncReset) => Ok(pair_scalar(table, left, pairs)?),
    }
}

/// Of a ground type and another, on either side.
fn pair_scalar(table: &TypeTable, other: Found, pairs: &mut Vec<LeafPair>) -> Result<(), MemoryOut>
    ensures right { OnOk result ((partial : Bool) (s : DataType) → is_ground_type s ≡ true → Paired pairs.old.items pairs.new.items (pairs_of partial s (found_type (types_of table.now) other))) }
    ensures left { OnOk result ((partial : Bool) (s : DataType) → is_ground_type s ≡ true → Paired pairs.old.items pairs.new.items (pairs_of partial (found_type (types_of table.now) other) s)) }
{
    if is_ground(table, other) {
        pairs.push(LeafPair {
            left: 0,
            right: 0,
            flip: false,
        })?;
        return Ok(());
    }
    Ok(())
}

/// Whether it has one leaf, which is itself.
fn is_ground(table: &TypeTable, found: Found) -> bool
    ensures { result ≡ is_ground_type (found_type (types_of table.now) found) }
{
    !matches!(sort(table, found), Sort::Bundle | Sort::Vector)
}

/// Of two parts, below a field that is flipped or not.
#[cycle(pairs)]
fn pair_parts(
    table: &TypeTable,
    partial: bool,
    flip: bool,
    left: Part,
    right: Part,
    pairs: &mut Vec<LeafPair>,
) -> Result<(), MemoryOut>
    ensures { OnOk result (PairsParts (types_of table.now) partial flip left right pairs.old.items pairs.new.items) }
{
    if table.leaves(left.ty) == 0 {
        return Ok(());
    }
    match (table.kind(left.ty), table.kind(right.ty)) {
        (Kind::Bundle, Kind::Bundle) => {
            if partial {
                return Ok(pair_named_fields(table, flip, left, right, pairs)?);
            }
            Ok(pair_fields(table, flip, left, right, pairs)?)
        }
        (Kind::Vector(s, n), Kind::Vector(t, m)) => {
            let one = Part {
                ty: s,
                first: left.first,
            };
            let other = Part {
                ty: t,
                first: right.first,
            };
            Ok(pair_elements(table, partial, flip, one, other, n.min(m), pairs)?)
        }
        (Kind::Bundle | Kind::Vector(_, _), _) | (_, Kind::Bundle | Kind::Vector(_, _)) => Ok(()),
        _ => {
            pairs.push(LeafPair {
                left: left.first,
                right: right.first,
                flip,
            })?;
            Ok(())
        }
    }
}

/// Of so many elements, of which the first ones are the parts.
#[cycle(pairs)]
fn pair_elements(
    table: &TypeTable,
    partial: bool,
    flip: bool,
    left: Part,
    right: Part,
    count: u128,
    pairs: &mut Vec<LeafPair>,
) -> Result<(), MemoryOut>
    ensures { OnOk result (PairsElements (types_of table.now) partial flip left right count pairs.old.items pairs.new.items) }
{
    if count == 0 {
        return Ok(());
    }
    let start = pairs.len();
    pair_parts(table, partial, flip, left, right, pairs)?;
    repeat_pairs(
        pairs,
        start,
        count,
        table.leaves(left.ty),
        table.leaves(right.ty),
    )
}

/// Of the fields of two bundles, the first with the first, and so on.
#[cycle(pairs)]
fn pair_fields(
    table: &TypeTable,
    flip: bool,
    left: Part,
    right: Part,
    pairs: &mut Vec<LeafPair>,
) -> Result<(), MemoryOut>
    ensures { OnOk result (PairsFields (types_of table.now) flip left.first right.first (members_at table.now left.ty.number) (members_at table.now right.ty.number) pairs.old.items pairs.new.items) }
{
    let fs = table.members(left.ty);
    let gs = table.members(right.ty);
    let mut one = left.first;
    let mut other = right.first;
    for i in 0..fs.len().min(gs.len()) {
        let f = &fs[i];
        let g = &gs[i];
        let here = Part {
            ty: f.ty,
            first: one,
        };
        let there = Part {
            ty: g.ty,
            first: other,
        };
        pair_parts(table, false, turned(flip, f.flip), here, there, pairs)?;
        one = one.saturating_add(table.leaves(f.ty));
        other = other.saturating_add(table.leaves(g.ty));
    }
    Ok(())
}

/// Of the fields of two bundles that have one name.
#[cycle(pairs)]
fn pair_named_fields(
    table: &TypeTable,
    flip: bool,
    left: Part,
    right: Part,
    pairs: &mut Vec<LeafPair>,
) -> Result<(), MemoryOut>
    ensures { OnOk result (PairsNamedFields (types_of table.now) flip left.first right (members_at table.now left.ty.number) pairs.old.items pairs.new.items) }
{
    let mut first = left.first;
    for member in table.members(left.ty) {
        pair_named(table, flip, member, first, right, pairs)?;
        first = first.saturating_add(table.leaves(member.ty));
    }
    Ok(())
}

/// Of a field, whose first leaf is given, and the one of its name on the right, where there is one.
#[cycle(pairs)]
fn pair_named(
    table: &TypeTable,
    flip: bool,
    member: &Member,
    first: u64,
    right: Part,
    pairs: &mut Vec<LeafPair>,
) -> Result<(), MemoryOut>
    ensures { OnOk result (PairsNamed (types_of table.now) flip member.now first right pairs.old.items pairs.new.items) }
{
    let Some(found) = table.field(right.ty, &member.name) else {
        return Ok(());
    };
    let here = Part {
        ty: member.ty,
        first,
    };
    let there = Part {
        ty: found.ty,
        first: right.first.saturating_add(found.offset),
    };
    Ok(pair_parts(table, true, turned(flip, member.flip), here, there, pairs)?)
}

/// The orientation below a field that is flipped or not.
fn turned(outer: bool, flip: bool) -> bool
    ensures { result ≡ turned outer flip }
{
    outer != flip
}

/// Puts the pairs from `start` on, those of the first of so many elements, again for each other element,
/// where elements have `each` and `other` leaves.
fn repeat_pairs(
    pairs: &mut Vec<LeafPair>,
    start: usize,
    count: u128,
    each: u64,
    other: u64,
) -> Result<(), MemoryOut>
    ensures { OnOk result (start ≤ length pairs.old.items → pairs.new.items ≡ pairs.old.items ++ copies 1 (count - 1) each other (drop start pairs.old.items)) }
{
    let end = pairs.len();
    if start >= end {
        return Ok(());
    }
    for i in 1..count {
        push_moved(pairs, start, end, times(i, each), times(i, other))?;
    }
    Ok(())
}

/// Puts some of the pairs again, with other numbers of leaves.
fn push_moved(
    pairs: &mut Vec<LeafPair>,
    start: usize,
    end: usize,
    left: u64,
    right: u64,
) -> Result<(), MemoryOut>
    requires some { start ≤ end }
    requires within { end ≤ length pairs.old.items }
    ensures { OnOk result (pairs.new.items ≡ pairs.old.items ++ map (moved left right) (slice_range pairs.old.items start end)) }
{
    for k in start..end {
        let pair = pairs[k];
        pairs.push(LeafPair {
            left: pair.left.saturating_add(left),
            right: pair.right.saturating_add(right),
            flip: pair.flip,
        })?;
    }
    Ok(())
}
