//! The leaves of types as the text writes them.

ghost use Rattle.std.specs.Prelude.{◌≡◌, map};
ghost use Rattle.fir_ast.specs.View.{fields_of};
ghost use Rattle.fir_ast.specs.working.TypeViews.{type_of};
ghost use Rattle.fir_ast.specs.working.BundleText.{field_of};
ghost use Rattle.fir_meaning.specs.TypeLeaves.{field_count, leaf_count};
ghost use Rattle.fir_type_table.specs.working.Saturated.{saturated};

use fir_ast::{Field, Ty};
use fir_type_table::times;

/// How many leaves a type has; at most 2^64 - 1.
#[cycle(leaves)]
pub fn leaves_of_type(ty: &Ty) -> u64
    ensures { result ≡ saturated (leaf_count (type_of ty.now)) }
{
    match ty {
        Ty::Bundle(fields) => leaves_of_fields(fields),
        Ty::Vector(element, length) => times(*length, leaves_of_type(element)),
        _ => 1,
    }
}

/// And fields together.
#[cycle(leaves)]
fn leaves_of_fields(fields: &[Field]) -> u64
    ensures { result ≡ saturated (field_count (fields_of (map field_of fields.now))) }
{
    let mut sum: u64 = 0;
    for field in fields {
        sum = sum.saturating_add(leaves_of_type(&field.ty));
    }
    sum
}
