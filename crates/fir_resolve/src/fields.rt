//! The fields of bundles: no two of one bundle have one name (E09). They are compared as text.

ghost use Rattle.std.specs.Prelude.{◌≡◌, [], IfOk, map, option_map};
ghost use Rattle.fir_ast.specs.View.{fields_of};
ghost use Rattle.fir_ast.specs.working.TypeViews.{type_of};
ghost use Rattle.fir_ast.specs.working.BundleText.{field_of};
ghost use Rattle.fir_ast.specs.working.CodeFaults.{fault_of};
ghost use Rattle.fir_pass.specs.Groups.{first_of};
ghost use Rattle.fir_meaning.specs.Mentions.{field_mentions, type_mentions};
ghost use Rattle.fir_meaning.specs.NameGroups.{faults_in};

use crate::namespace::Namespace;
use fir_ast::{Field, FirFault, Ty};
use fir_base::MemoryOut;
use std::alloc::Global;

/// The first fault of names in a type.
#[cycle(types)]
pub fn in_type(ty: &Ty, alloc: Global) -> Result<Option<FirFault>, MemoryOut>
    ensures { IfOk result (λ f. option_map fault_of f ≡ first_of (faults_in (type_mentions (type_of ty.now)))) }
{
    match ty {
        Ty::Bundle(fields) => in_fields(fields, alloc),
        Ty::Vector(element, _) => in_type(element, alloc),
        Ty::UInt(_) | Ty::SInt(_) | Ty::Clock | Ty::Reset | Ty::AsyncReset => Ok(None),
    }
}

#[cycle(types)]
fn in_fields(fields: &[Field], alloc: Global) -> Result<Option<FirFault>, MemoryOut>
    ensures { IfOk result (λ f. option_map fault_of f ≡ first_of (faults_in (field_mentions [] (fields_of (map field_of fields.now))))) }
{
    let mut namespace = Namespace::new(alloc);
    for field in fields {
        if let Some(fault) = namespace.declare(alloc, field.place, &field.name)? {
            return Ok(Some(fault));
        }
        if let Some(fault) = in_type(&field.ty, alloc)? {
            return Ok(Some(fault));
        }
    }
    Ok(None)
}
