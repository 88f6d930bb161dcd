//! The leaves of a type take the next numbers, in its order: of a vector those of its element, which stand
//! for all elements.

ghost use Rattle.std.specs.Prelude.{[], ◌∷◌, OnOk};
ghost use Rattle.fir_meaning.specs.WidthExpressions.{known};
ghost use Rattle.fir_type_table.specs.working.Tables.{member_fields, members_at, shown, shown_fields, type_at, types_of};
ghost use Rattle.fir_types.specs.working.Seen.{found_type};
ghost use Rattle.fir_width.specs.working.FieldsAt.{IsBundleAt};
ghost use Rattle.fir_infer_widths.specs.working.PushedLeaves.{Pushes, field_widths, number_width, type_widths};

use crate::arena::Arena;
use fir_base::MemoryOut;
use fir_type_table::{Kind, TypeId, TypeTable};
use fir_types::Found;
use fir_width::{Counted, field_at};

/// Which widths of the leaves of a type are unknowns. Below a vector of length 0, where no leaf stands,
/// none is.
#[derive(Clone, Copy)]
pub enum Unknowns {
    /// None: a width that is not written is 0. So it is for memories, of which all are written.
    Nowhere,
    /// Those that are not written: of ports, wires and registers.
    Unwritten,
    /// All: of nodes, since a node's type is that of its expression.
    Everywhere,
}

/// The leaves of what is found, with the widths that are unknowns.
pub fn push_found(
    table: &TypeTable,
    found: Found,
    unknowns: Unknowns,
    arena: &mut Arena,
) -> Result<(), MemoryOut>
    ensures { OnOk result (Pushes (type_widths unknowns (found_type (types_of table.now) found)) arena.old arena.new) }
{
    match found {
        Found::Number(_, width) => push_number(width, unknowns, arena),
        Found::AsyncReset => push_written(1, arena),
        Found::Type(id, is_bare) => push_type(table, id, is_bare, unknowns, arena),
    }
}

/// The leaf of a UInt or an SInt.
fn push_number(width: Option<u128>, unknowns: Unknowns, arena: &mut Arena) -> Result<(), MemoryOut>
    ensures { OnOk result (Pushes (λ k. number_width unknowns k width ∷ []) arena.old arena.new) }
{
    match unknowns {
        Unknowns::Nowhere => push_written(width.unwrap_or(0), arena),
        Unknowns::Unwritten => match width {
            Some(width) => push_written(width, arena),
            None => arena.push_unknown(),
        },
        Unknowns::Everywhere => arena.push_unknown(),
    }
}

/// A leaf whose width is written.
fn push_written(width: u128, arena: &mut Arena) -> Result<(), MemoryOut>
    ensures { OnOk result (Pushes (λ k. known width ∷ []) arena.old arena.new) }
{
    arena.push_known(width)?;
    Ok(())
}

/// The leaves of a type of the table, or of that type without its widths.
#[cycle(leaves)]
fn push_type(
    table: &TypeTable,
    id: TypeId,
    is_bare: bool,
    unknowns: Unknowns,
    arena: &mut Arena,
) -> Result<(), MemoryOut>
    ensures { OnOk result (Pushes (type_widths unknowns (shown is_bare (type_at (types_of table.now) id.number))) arena.old arena.new) }
{
    match table.kind(id) {
        Kind::UInt(width) | Kind::SInt(width) => {
            push_number(if is_bare { None } else { width }, unknowns, arena)
        }
        Kind::Clock => push_written(0, arena),
        Kind::Reset | Kind::AsyncReset => push_written(1, arena),
        Kind::Bundle => push_members(table, id, is_bare, unknowns, arena),
        Kind::Vector(element, length) => {
            let inside = if length == 0 {
                Unknowns::Nowhere
            } else {
                unknowns
            };
            push_type(table, element, is_bare, inside, arena)
        }
    }
}

/// Those of the fields of a bundle. Fields without leaves are stepped over.
#[cycle(leaves)]
fn push_members(
    table: &TypeTable,
    id: TypeId,
    is_bare: bool,
    unknowns: Unknowns,
    arena: &mut Arena,
) -> Result<(), MemoryOut>
    requires { IsBundleAt table.now id.number }
    ensures { OnOk result (Pushes (field_widths unknowns (shown_fields is_bare (member_fields (types_of table.now) (members_at table.now id.number)))) arena.old arena.new) }
{
    let count = table.shared_leaves(id);
    // At 2^64 - 1 the number of leaves stands still.
    if count == u64::MAX {
        return Err(MemoryOut);
    }
    let mut leaf = 0u64;
    while leaf < count {
        let field = field_at(table, id, Counted::Shared, leaf);
        push_type(table, field.ty, is_bare, unknowns, arena)?;
        leaf += table.shared_leaves(field.ty);
    }
    Ok(())
}
