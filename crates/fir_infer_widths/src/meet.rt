//! What drives what in a connect: leaf by leaf, a flipped field the other way (FIRRTL spec, "Connects",
//! "Partial Connects").

ghost use Rattle.std.specs.Prelude.{◌≡◌, ◌++◌, List, flat_map, OnOk};
ghost use Rattle.fir_meaning.specs.WidthExpressions.{Rule, Width};
ghost use Rattle.fir_meaning.specs.WidthRules.{bound, connect_rules};
ghost use Rattle.fir_meaning.specs.SizedMatches.{field_matches, matches, where_met};
ghost use Rattle.fir_meaning.specs.SizedTypes.{Scalar, Sized, SizedFields, fields_in, scalar, sized_named, sized_vector};
ghost use Rattle.fir_type_table.specs.working.Tables.{members_at, types_of};
ghost use Rattle.fir_infer_widths.specs.working.Meetings.{AreFields, asked_by};
ghost use Rattle.fir_infer_widths.specs.working.Numbered.{Keeps};
ghost use Rattle.fir_width.specs.working.StandingWidths.{Has};
ghost use Rattle.fir_width.specs.working.Sides.{IsSide};

use crate::arena::Arena;
use crate::direction::direction;
use fir_base::{MemoryOut, Name};
use fir_type_table::{Kind, TypeId, TypeTable};
use fir_types::found::{elements, field, sort};
use fir_types::{Found, Sort};
use fir_width::Side;

/// Asks for what a connect of the left side to the right one asks.
pub fn connect(
    arena: &mut Arena,
    table: &TypeTable,
    left: Side,
    right: Side,
) -> Result<(), MemoryOut>
    ensures { (meant : List Width) (rules : List Rule) (s t : Sized) → Keeps meant rules arena.old → IsSide (types_of table.now) meant left s → IsSide (types_of table.now) meant right t → OnOk result (Keeps meant (rules ++ connect_rules s t) arena.new) }
{
    meet(arena, table, false, left, right)
}

/// The same for two types that meet, where the right side is driven if the direction is turned. Their widths
/// are those of the numbers, so within them types are taken without widths.
#[cycle(meet)]
fn meet(
    arena: &mut Arena,
    table: &TypeTable,
    turned: bool,
    left: Side,
    right: Side,
) -> Result<(), MemoryOut>
    ensures { (meant : List Width) (rules : List Rule) (s t : Sized) → Keeps meant rules arena.old → IsSide (types_of table.now) meant left s → IsSide (types_of table.now) meant right t → OnOk result (Keeps meant (rules ++ flat_map (λ m. bound m.driven m.driver) (matches turned s t)) arena.new) }
{
    let Found::Type(id, _) = left.found else {
        return meet_leaf(arena, table, turned, left.first, right);
    };
    match table.kind(id) {
        Kind::Bundle => meet_fields(arena, table, turned, id, left.first, right),
        Kind::Vector(element, length) => {
            let one = Side {
                found: Found::Type(element, true),
                first: left.first,
            };
            meet_elements(arena, table, turned, one, length, right)
        }
        _ => meet_leaf(arena, table, turned, left.first, right),
    }
}

/// A leaf, of which the number is given, and a side that may be one.
fn meet_leaf(
    arena: &mut Arena,
    table: &TypeTable,
    turned: bool,
    left: usize,
    right: Side,
) -> Result<(), MemoryOut>
    ensures { (meant : List Width) (rules : List Rule) (k : Scalar) (v : Width) (t : Sized) → Keeps meant rules arena.old → Has meant left v → IsSide (types_of table.now) meant right t → OnOk result (Keeps meant (rules ++ asked_by (matches turned (scalar k v) t)) arena.new) }
{
    match sort(table, right.found) {
        Sort::Bundle | Sort::Vector => Ok(()),
        _ if turned => arena.ask(right.first, left),
        _ => arena.ask(left, right.first),
    }
}

/// An element of so many, and a side that may have elements, too.
#[cycle(meet)]
fn meet_elements(
    arena: &mut Arena,
    table: &TypeTable,
    turned: bool,
    left: Side,
    length: u128,
    right: Side,
) -> Result<(), MemoryOut>
    ensures { (meant : List Width) (rules : List Rule) (s t : Sized) → Keeps meant rules arena.old → IsSide (types_of table.now) meant left s → IsSide (types_of table.now) meant right t → OnOk result (Keeps meant (rules ++ asked_by (matches turned (sized_vector s length) t)) arena.new) }
{
    let Some((found, count)) = elements(table, right.found) else {
        return Ok(());
    };
    if length.min(count) == 0 {
        return Ok(());
    }
    let other = Side {
        found,
        first: right.first,
    };
    meet(arena, table, turned, left, other)
}

/// The fields of a bundle, whose leaves have the numbers from `first` on, and a side that may have fields, too.
#[cycle(meet)]
fn meet_fields(
    arena: &mut Arena,
    table: &TypeTable,
    turned: bool,
    bundle: TypeId,
    first: usize,
    right: Side,
) -> Result<(), MemoryOut>
    ensures { (meant : List Width) (rules : List Rule) (fs : SizedFields) (t : Sized) → Keeps meant rules arena.old → AreFields (types_of table.now) meant first (members_at table.now bundle.number) fs → IsSide (types_of table.now) meant right t → OnOk result (Keeps meant (rules ++ asked_by (field_matches turned fs (fields_in t))) arena.new) }
{
    let mut next = first;
    for member in table.members(bundle) {
        let one = Side {
            found: Found::Type(member.ty, true),
            first: next,
        };
        let way = direction(turned, member.flip);
        meet_field(arena, table, way, &member.name, one, right)?;
        next = next.saturating_add(table.shared_leaves(member.ty) as usize);
    }
    Ok(())
}

/// A field and the one of its name of the right side, where there is one.
#[cycle(meet)]
fn meet_field(
    arena: &mut Arena,
    table: &TypeTable,
    turned: bool,
    name: &Name,
    left: Side,
    right: Side,
) -> Result<(), MemoryOut>
    ensures { (meant : List Width) (rules : List Rule) (s t : Sized) → Keeps meant rules arena.old → IsSide (types_of table.now) meant left s → IsSide (types_of table.now) meant right t → OnOk result (Keeps meant (rules ++ asked_by (where_met (λ u. matches turned s u) (sized_named name.now (fields_in t)))) arena.new) }
{
    let Some(found) = field(table, right.found, name) else {
        return Ok(());
    };
    let other = Side {
        found: found.found,
        first: right.first.saturating_add(found.shared_offset as usize),
    };
    meet(arena, table, turned, left, other)
}
