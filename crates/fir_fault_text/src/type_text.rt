//! Types as text: as in the grammar, with one space after a colon, a comma and `flip`.

ghost use Rattle.std.specs.Prelude.{◌≡◌, ◌++◌, OnOk, codes, decimal, map};
ghost use Rattle.fir_ast.specs.working.BundleText.{bundle_text, field_of};
ghost use Rattle.fir_ast.specs.Texts.{flip_text, type_text, width_text};
ghost use Rattle.fir_ast.specs.Types.{bundle};
ghost use Rattle.fir_ast.specs.View.{fields_of};
ghost use Rattle.fir_ast.specs.working.TypeViews.{type_of};

use fir_ast::{Field, Ty};
use fir_base::{MemoryOut, put_decimal};

/// Appends a type.
#[cycle(type_text)]
pub fn put_type(out: &mut Vec<u8>, ty: &Ty) -> Result<(), MemoryOut>
    ensures { OnOk result (out.new.items ≡ out.old.items ++ type_text (type_of ty.now)) }
{
    match ty {
        Ty::UInt(width) => put_sized(out, b"UInt", *width),
        Ty::SInt(width) => put_sized(out, b"SInt", *width),
        Ty::Clock => put_word(out, b"Clock"),
        Ty::Reset => put_word(out, b"Reset"),
        Ty::AsyncReset => put_word(out, b"AsyncReset"),
        Ty::Bundle(fields) => put_bundle(out, fields),
        Ty::Vector(element, length) => {
            put_type(out, element)?;
            put_between(out, b"[", *length, b"]")
        }
    }
}

/// Appends a bundle of the fields.
#[cycle(type_text)]
fn put_bundle(out: &mut Vec<u8>, fields: &[Field]) -> Result<(), MemoryOut>
    ensures { OnOk result (out.new.items ≡ out.old.items ++ type_text (bundle (fields_of (map field_of fields.now)))) }
{
    put_word(out, b"{")?;
    put_fields(out, fields)?;
    put_word(out, b"}")
}

/// Appends the fields of a bundle, without its braces.
#[cycle(type_text)]
fn put_fields(out: &mut Vec<u8>, fields: &[Field]) -> Result<(), MemoryOut>
    ensures { OnOk result (out.new.items ≡ out.old.items ++ bundle_text (fields_of (map field_of fields.now))) }
{
    for (i, field) in fields.iter().enumerate() {
        if i > 0 {
            put_word(out, b", ")?;
        }
        put_label(out, field.flip, field.name.as_bytes())?;
        put_type(out, &field.ty)?;
    }
    Ok(())
}

fn put_label(out: &mut Vec<u8>, flip: bool, name: &[u8]) -> Result<(), MemoryOut>
    ensures { OnOk result (out.new.items ≡ out.old.items ++ (flip_text flip ++ name.now ++ codes ": ")) }
{
    if flip {
        put_word(out, b"flip ")?;
    }
    put_word(out, name)?;
    put_word(out, b": ")
}

fn put_sized(out: &mut Vec<u8>, word: &[u8], width: Option<u128>) -> Result<(), MemoryOut>
    ensures { OnOk result (out.new.items ≡ out.old.items ++ (word.now ++ width_text width)) }
{
    put_word(out, word)?;
    match width {
        Some(bits) => put_between(out, b"<", bits, b">"),
        None => Ok(()),
    }
}

/// Appends a number in decimal between its signs.
fn put_between(
    out: &mut Vec<u8>,
    opening: &[u8],
    number: u128,
    closing: &[u8],
) -> Result<(), MemoryOut>
    ensures { OnOk result (out.new.items ≡ out.old.items ++ (opening.now ++ decimal number ++ closing.now)) }
{
    put_word(out, opening)?;
    put_decimal(out, number)?;
    put_word(out, closing)
}

/// Appends words or signs as they are.
pub fn put_word(out: &mut Vec<u8>, word: &[u8]) -> Result<(), MemoryOut>
    ensures { OnOk result (out.new.items ≡ out.old.items ++ word.now) }
{
    out.extend_from_slice(word)?;
    Ok(())
}
