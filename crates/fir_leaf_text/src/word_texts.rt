//! The texts of the leaves of a type as the text writes it, in one walk down it (FIRRTL spec, "Types", "References").

ghost use Rattle.std.specs.Prelude.{◌≡◌, ◌≤◌, ◌++◌, OnOk, drop, length, map, slice_range};
ghost use Rattle.fir_ast.specs.Types.{DataType, bundle, vector};
ghost use Rattle.fir_ast.specs.View.{fields_of};
ghost use Rattle.fir_ast.specs.working.BundleText.{field_of};
ghost use Rattle.fir_ast.specs.working.TypeViews.{type_of};
ghost use Rattle.fir_leaf_text.specs.working.TypePaths.{texts_behind, type_paths};
ghost use Rattle.fir_leaf_text.specs.working.WordTexts.{AreOfFirst, other_texts};

use crate::leaf_step::{put_element, put_field};
use crate::type_texts::push_text;
use fir_ast::{Field, Ty};
use fir_base::{MemoryOut, Name};
use std::alloc::Global;

/// Pushes the text of each leaf of the type, in their order, each behind the path.
#[cycle(words)]
pub fn push_word_texts(
    alloc: Global,
    ty: &Ty,
    path: &mut Vec<u8>,
    texts: &mut Vec<Name>,
) -> Result<(), MemoryOut>
    ensures path { OnOk result (path.new.items ≡ path.old.items) }
    ensures texts { OnOk result (texts.new.items ≡ texts.old.items ++ texts_behind path.old.items (type_paths (type_of ty.now))) }
{
    match ty {
        Ty::Bundle(fields) => push_texts_of_fields(alloc, fields, path, texts),
        Ty::Vector(element, length) => push_texts_of_elements(alloc, element, *length, path, texts),
        Ty::UInt(_) | Ty::SInt(_) | Ty::Clock | Ty::Reset | Ty::AsyncReset => {
            push_text(alloc, path, texts)
        }
    }
}

/// Those of the fields of a bundle.
#[cycle(words)]
fn push_texts_of_fields(
    alloc: Global,
    fields: &[Field],
    path: &mut Vec<u8>,
    texts: &mut Vec<Name>,
) -> Result<(), MemoryOut>
    ensures path { OnOk result (path.new.items ≡ path.old.items) }
    ensures texts { OnOk result (texts.new.items ≡ texts.old.items ++ texts_behind path.old.items (type_paths (bundle (fields_of (map field_of fields.now))))) }
{
    let before = path.len();
    for field in fields {
        put_field(path, &field.name)?;
        push_word_texts(alloc, &field.ty, path, texts)?;
        path.truncate(before);
    }
    Ok(())
}

/// Those of the elements of a vector. The type is walked for the first element alone.
#[cycle(words)]
fn push_texts_of_elements(
    alloc: Global,
    element: &Ty,
    length: u128,
    path: &mut Vec<u8>,
    texts: &mut Vec<Name>,
) -> Result<(), MemoryOut>
    ensures path { OnOk result (path.new.items ≡ path.old.items) }
    ensures texts { OnOk result (texts.new.items ≡ texts.old.items ++ texts_behind path.old.items (type_paths (vector (type_of element.now) length))) }
{
    if length == 0 {
        return Ok(());
    }
    let before = path.len();
    let start = texts.len();
    put_element(path, 0)?;
    push_word_texts(alloc, element, path, texts)?;
    let cut = path.len();
    path.truncate(before);
    push_other_elements(alloc, length, start, cut, path, texts)
}

/// Those of the elements behind the first, whose own stand from a number on: they are copied, with another path in
/// place of that of the first, which has so many bytes. Elements without leaves are passed at once, however many there
/// are.
fn push_other_elements(
    alloc: Global,
    length: u128,
    start: usize,
    cut: usize,
    path: &mut Vec<u8>,
    texts: &mut Vec<Name>,
) -> Result<(), MemoryOut>
    ensures path { OnOk result (path.new.items ≡ path.old.items) }
    ensures texts { OnOk result ((t : DataType) → AreOfFirst t path.old.items cut (drop start texts.old.items) → texts.new.items ≡ texts.old.items ++ other_texts t length path.old.items) }
{
    let end = texts.len();
    if start >= end {
        return Ok(());
    }
    let before = path.len();
    for index in 1..length {
        put_element(path, index)?;
        push_copies(alloc, start, end, cut, path, texts)?;
        path.truncate(before);
    }
    Ok(())
}

/// Pushes copies of the texts from a number on up to another, each with the path in place of its first bytes, so many.
fn push_copies(
    alloc: Global,
    start: usize,
    end: usize,
    cut: usize,
    path: &mut Vec<u8>,
    texts: &mut Vec<Name>,
) -> Result<(), MemoryOut>
    requires ordered { start ≤ end }
    requires within { end ≤ length texts.old.items }
    ensures path { OnOk result (path.new.items ≡ path.old.items) }
    ensures texts { OnOk result (texts.new.items ≡ texts.old.items ++ map (λ text. path.old.items ++ drop cut text) (slice_range texts.old.items start end)) }
{
    let before = path.len();
    for number in start..end {
        path.extend_from_slice(rest_of(&texts[number], cut))?;
        push_text(alloc, path, texts)?;
        path.truncate(before);
    }
    Ok(())
}

/// The bytes of a text behind so many.
fn rest_of(text: &Name, cut: usize) -> &[u8]
    ensures { result.now ≡ drop cut text.now }
{
    let bytes = text.as_bytes();
    &bytes[cut.min(bytes.len())..]
}
