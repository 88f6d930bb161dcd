//! What the leaves of a memory's words hold, as the text writes their type (FIRRTL spec, "Memories").

ghost use Rattle.std.specs.Prelude.{◌≡◌, ◌++◌, IfOk, OnOk, None, drop, map};
ghost use Rattle.fir_ast.specs.View.{fields_of};
ghost use Rattle.fir_ast.specs.working.TypeViews.{type_of};
ghost use Rattle.fir_ast.specs.working.BundleText.{field_of};
ghost use Rattle.fir_meaning.specs.SizedTypes.{leaf_width, numbered, numbered_fields};
ghost use Rattle.fir_meaning.specs.WidthExpressions.{Widths as Assignment, width_under};
ghost use Rattle.fir_meaning.specs.LeafTypes.{number};
ghost use Rattle.fir_meaning.specs.HeldTypes.{held_field_types, held_types, repeated};
ghost use Rattle.fir_leaf_circuit.specs.working.Seen.{type_seen};
ghost use Rattle.fir_leaf_table.specs.working.TypedLeaves.{types_seen};

use fir_ast::{Field, Ty};
use fir_base::MemoryOut;
use fir_bits::NumTy;
use fir_leaf_circuit::LeafType;
use std::alloc::Global;

/// What each leaf of a type holds, where no width is left to be inferred.
pub fn word_types(alloc: Global, ty: &Ty) -> Result<Vec<LeafType>, MemoryOut>
    ensures { IfOk result (λ types. (w : Assignment) → types_seen types.items ≡ held_types w (numbered None (type_of ty.now))) }
{
    let mut types = Vec::new(alloc);
    put_type(ty, &mut types)?;
    Ok(types)
}

/// A number of a width in bits, or of none where no width is written. A width over 128 counts as 129.
fn number_of_width(signed: bool, width: Option<u128>) -> LeafType
    ensures { (w : Assignment) → type_seen result ≡ number (record { signed = signed; width = width_under (leaf_width None width) w }) }
{
    let width = width.unwrap_or(0).min(129) as u32;
    LeafType::Number(NumTy { signed, width })
}

/// Puts what each leaf of a type holds behind the others.
#[cycle(words)]
fn put_type(ty: &Ty, types: &mut Vec<LeafType>) -> Result<(), MemoryOut>
    ensures { OnOk result ((w : Assignment) → types_seen types.new.items ≡ types_seen types.old.items ++ held_types w (numbered None (type_of ty.now))) }
{
    match ty {
        Ty::UInt(width) => types.push(number_of_width(false, *width))?,
        Ty::SInt(width) => types.push(number_of_width(true, *width))?,
        Ty::Clock => types.push(LeafType::Clock)?,
        Ty::Reset | Ty::AsyncReset => types.push(number_of_width(false, Some(1)))?,
        Ty::Bundle(fields) => put_fields(fields, types)?,
        Ty::Vector(element, length) => {
            if let Some(others) = length.checked_sub(1) {
                let start = types.len();
                put_type(element, types)?;
                repeat(types, start, others)?;
            }
        }
    }
    Ok(())
}

/// And of fields, one after another.
#[cycle(words)]
fn put_fields(fields: &[Field], types: &mut Vec<LeafType>) -> Result<(), MemoryOut>
    ensures { OnOk result ((w : Assignment) → types_seen types.new.items ≡ types_seen types.old.items ++ held_field_types w (numbered_fields None (fields_of (map field_of fields.now)))) }
{
    for field in fields {
        put_type(&field.ty, types)?;
    }
    Ok(())
}

/// Puts what stands from a place on so many more times behind itself.
fn repeat(types: &mut Vec<LeafType>, start: usize, times: u128) -> Result<(), MemoryOut>
    ensures { OnOk result (types.new.items ≡ types.old.items ++ repeated times (drop start types.old.items)) }
{
    let end = types.len();
    if start < end {
        for _ in 0..times {
            types.extend_from_within(start..end)?;
        }
    }
    Ok(())
}
