//! The first leaf over 128 bits of a type that the text writes (FIRRTL spec, "Width Inference").

ghost use Rattle.std.specs.Prelude.{◌≡◌, IfOk, flat_map, map, option_map};
ghost use Rattle.fir_ast.specs.Types.{sint, uint};
ghost use Rattle.fir_ast.specs.View.{fields_of};
ghost use Rattle.fir_ast.specs.working.TypeViews.{type_of};
ghost use Rattle.fir_ast.specs.working.BundleText.{field_of};
ghost use Rattle.fir_meaning.specs.LeafPaths.{named, step_text};
ghost use Rattle.fir_type_table.specs.working.Wanted.{IsPathFound};
ghost use Rattle.fir_infer_widths.specs.working.FirstLeaves.{first_where, leaf_says_over, says_over};
ghost use Rattle.fir_infer_widths.specs.working.NumberedLeaves.{numbered_field_leaves, numbered_leaves, numbered_under};

use crate::leaf_path::{kept, put_element, put_field};
use fir_ast::{Field, Ty};
use fir_base::MemoryOut;
use fir_least_widths::OVER;
use std::alloc::Global;

/// The path within a type to its first leaf with a width over 128 bits.
pub fn first_written_over(alloc: Global, ty: &Ty) -> Result<Option<Vec<u8>>, MemoryOut>
    ensures { IfOk result (λ r. option_map (λ v. v.items) r ≡ option_map (flat_map step_text) (first_where leaf_says_over (numbered_leaves 0 (type_of ty.now)))) }
{
    let mut path = Vec::new(alloc);
    if find_leaf(ty, &mut path)? {
        return Ok(Some(path));
    }
    Ok(None)
}

/// Writes the path behind what stands there. Where there is no such leaf nothing is written. All elements of
/// a vector have the same leaves, so only its first element is entered.
#[cycle(written)]
fn find_leaf(ty: &Ty, path: &mut Vec<u8>) -> Result<bool, MemoryOut>
    ensures { IfOk result (λ found. IsPathFound path.old.items path.new.items found (first_where leaf_says_over (numbered_leaves 0 (type_of ty.now)))) }
{
    match ty {
        Ty::UInt(width) | Ty::SInt(width) => Ok(is_over(*width)),
        Ty::Bundle(fields) => find_in_fields(fields, path),
        Ty::Vector(element, length) => {
            if *length == 0 {
                return Ok(false);
            }
            let before = path.len();
            put_element(path, 0)?;
            let found = find_leaf(element, path)?;
            Ok(kept(path, before, found))
        }
        Ty::Clock | Ty::Reset | Ty::AsyncReset => Ok(false),
    }
}

#[cycle(written)]
fn find_in_fields(fields: &[Field], path: &mut Vec<u8>) -> Result<bool, MemoryOut>
    ensures { IfOk result (λ found. IsPathFound path.old.items path.new.items found (first_where leaf_says_over (numbered_field_leaves 0 (fields_of (map field_of fields.now))))) }
{
    for field in fields {
        if find_in_field(field, path)? {
            return Ok(true);
        }
    }
    Ok(false)
}

#[cycle(written)]
fn find_in_field(field: &Field, path: &mut Vec<u8>) -> Result<bool, MemoryOut>
    ensures { IfOk result (λ found. IsPathFound path.old.items path.new.items found (first_where leaf_says_over (map (numbered_under field.now.flip (named field.now.name)) (numbered_leaves 0 (type_of field.now.ty))))) }
{
    let before = path.len();
    put_field(path, &field.name)?;
    let found = find_leaf(&field.ty, path)?;
    Ok(kept(path, before, found))
}

/// Whether a width is written, and is over 128 bits.
fn is_over(width: Option<u128>) -> bool
    ensures uint { result ≡ says_over (uint width) }
    ensures sint { result ≡ says_over (sint width) }
{
    match width {
        Some(width) => width >= u128::from(OVER),
        None => false,
    }
}
