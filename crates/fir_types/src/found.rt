//! What an expression is found to be.

ghost use Rattle.std.specs.Prelude.{◌≡◌, ℕ, List, Option, IfOk, IfSome, option_map};
ghost use Rattle.fir_ast.specs.working.TypeViews.{type_of};
ghost use Rattle.fir_meaning.specs.Reaching.{field_of_type, vector_of_type};
ghost use Rattle.fir_ast.specs.Types.{DataType};
ghost use Rattle.fir_meaning.specs.TypeKinds.{bare, is_numeric, is_passive};
ghost use Rattle.fir_meaning.specs.ExpressionTypes.{number_data_type};
ghost use Rattle.fir_meaning.specs.TypeLeaves.{leaf_count};
ghost use Rattle.fir_meaning.specs.SharedLeaves.{shared_count};
ghost use Rattle.fir_type_table.specs.working.Saturated.{saturated};
ghost use Rattle.fir_meaning.specs.working.FieldSizes.{leaves_before, shared_before};
ghost use Rattle.fir_type_table.specs.declared.entry.Member.{Member};
ghost use Rattle.fir_type_table.specs.working.Tables.{made_of, types_of};
ghost use Rattle.fir_types.specs.working.Seen.{field_seen, found_type};
ghost use Rattle.fir_types.specs.working.Sorts.{sort_of};

use crate::sort::Sort;
use fir_ast::Ty;
use fir_base::{MemoryOut, Name};
use fir_type_table::{Kind, TypeId, TypeTable};
use std::alloc::Global;

/// The type of an expression.
#[derive(Clone, Copy)]
pub enum Found {
    /// A UInt or an SInt that stands in no table, with its width if one is written: that of a literal, or of
    /// the result of an operation.
    Number(bool, Option<u128>),
    /// The result of a conversion to an AsyncReset.
    AsyncReset,
    /// A type of the table, and whether it is without its widths: as the result of a mux or a validif, and
    /// what is part of one.
    Type(TypeId, bool),
}

/// A field of what is found.
#[derive(Clone, Copy)]
pub struct FieldOf {
    pub flip: bool,
    pub found: Found,
    /// How many leaves come before its first; at most 2^64 - 1.
    pub offset: u64,
    /// The same where all elements of a vector share their leaves.
    pub shared_offset: u64,
}

/// The sort of a type.
pub fn sort(table: &TypeTable, found: Found) -> Sort
    ensures { result ≡ sort_of (found_type (types_of table.now) found) }
{
    match found {
        Found::Number(signed, _) => number_sort(signed),
        Found::AsyncReset => Sort::AsyncReset,
        Found::Type(id, _) => kind_sort(table.kind(id)),
    }
}

fn number_sort(signed: bool) -> Sort
    ensures { (width : Option ℕ) → result ≡ sort_of (number_data_type signed width) }
{
    if signed { Sort::SInt } else { Sort::UInt }
}

fn kind_sort(kind: Kind) -> Sort
    ensures { (ts : List DataType) (members : List Member) → result ≡ sort_of (made_of ts kind members) }
{
    match kind {
        Kind::UInt(_) => Sort::UInt,
        Kind::SInt(_) => Sort::SInt,
        Kind::Clock => Sort::Clock,
        Kind::Reset => Sort::Reset,
        Kind::AsyncReset => Sort::AsyncReset,
        Kind::Bundle => Sort::Bundle,
        Kind::Vector(_, _) => Sort::Vector,
    }
}

/// Whether no field of it is flipped, at any depth.
#[tactic(auto, using(crate::proofs::BareTypes::shown_passive))]
pub fn is_passive(table: &TypeTable, found: Found) -> bool
    ensures { result ≡ is_passive (found_type (types_of table.now) found) }
{
    match found {
        Found::Number(_, _) | Found::AsyncReset => true,
        Found::Type(id, _) => table.is_passive(id),
    }
}

/// Whether all its leaves are UInt or SInt.
#[tactic(auto, using(crate::proofs::BareTypes::shown_numeric))]
pub fn is_numeric(table: &TypeTable, found: Found) -> bool
    ensures { result ≡ is_numeric (found_type (types_of table.now) found) }
{
    match found {
        Found::Number(_, _) => true,
        Found::AsyncReset => false,
        Found::Type(id, _) => table.is_numeric(id),
    }
}

/// Its field of that name.
#[tactic(auto, using(crate::proofs::BareTypes::shown_field_of_type, crate::proofs::BareTypes::shown_leaves_before, crate::proofs::BareTypes::shown_shared_before))]
pub fn field(table: &TypeTable, found: Found, name: &Name) -> Option<FieldOf>
    ensures found { option_map (field_seen (types_of table.now)) result ≡ field_of_type name.now (found_type (types_of table.now) found) }
    ensures offset { IfSome result (λ f. f.offset ≡ saturated (leaves_before name.now (found_type (types_of table.now) found))) }
    ensures shared_offset { IfSome result (λ f. f.shared_offset ≡ saturated (shared_before name.now (found_type (types_of table.now) found))) }
{
    match found {
        Found::Number(_, _) | Found::AsyncReset => None,
        Found::Type(id, is_bare) => {
            let field = table.field(id, name)?;
            Some(FieldOf {
                flip: field.flip,
                found: Found::Type(field.ty, is_bare),
                offset: field.offset,
                shared_offset: field.shared_offset,
            })
        }
    }
}

/// Its elements, and how many there are.
pub fn elements(table: &TypeTable, found: Found) -> Option<(Found, u128)>
    ensures { option_map (λ e. (found_type (types_of table.now) e.0, e.1)) result ≡ vector_of_type (found_type (types_of table.now) found) }
{
    match found {
        Found::Number(_, _) | Found::AsyncReset => None,
        Found::Type(id, is_bare) => match table.kind(id) {
            Kind::Vector(element, length) => Some((Found::Type(element, is_bare), length)),
            _ => None,
        },
    }
}

/// How many leaves it has; at most 2^64 - 1.
#[tactic(auto, using(crate::proofs::BareTypes::shown_leaf_count))]
pub fn leaves(table: &TypeTable, found: Found) -> u64
    ensures { result ≡ saturated (leaf_count (found_type (types_of table.now) found)) }
{
    match found {
        Found::Number(_, _) | Found::AsyncReset => 1,
        Found::Type(id, _) => table.leaves(id),
    }
}

/// How many where all elements of a vector share their leaves; at most 2^64 - 1.
#[tactic(auto, using(crate::proofs::BareTypes::shown_shared_count))]
pub fn shared_leaves(table: &TypeTable, found: Found) -> u64
    ensures { result ≡ saturated (shared_count (found_type (types_of table.now) found)) }
{
    match found {
        Found::Number(_, _) | Found::AsyncReset => 1,
        Found::Type(id, _) => table.shared_leaves(id),
    }
}

/// The same without its widths.
#[tactic(auto, using(crate::proofs::BareTypes::shown_bare))]
pub fn bare(found: Found) -> Found
    ensures { (ts : List DataType) → found_type ts result ≡ bare (found_type ts found) }
{
    match found {
        Found::Number(signed, _) => Found::Number(signed, None),
        Found::AsyncReset => Found::AsyncReset,
        Found::Type(id, _) => Found::Type(id, true),
    }
}

/// The type, as a text would write it.
pub fn ty(alloc: Global, table: &TypeTable, found: Found) -> Result<Ty, MemoryOut>
    ensures { IfOk result (λ t. type_of t ≡ found_type (types_of table.now) found) }
{
    match found {
        Found::Number(true, width) => Ok(Ty::SInt(width)),
        Found::Number(false, width) => Ok(Ty::UInt(width)),
        Found::AsyncReset => Ok(Ty::AsyncReset),
        Found::Type(id, is_bare) => table.ty(alloc, id, is_bare),
    }
}
