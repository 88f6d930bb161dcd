//! What a fault's line says behind the place.

ghost use Rattle.std.specs.Prelude.{◌≡◌, ◌++◌, OnOk, codes, decimal};
ghost use Rattle.ver_fault.specs.Texts.{byte_text, vplace_text, walk_text};
ghost use Rattle.ver_fault.specs.View.{vevidence};

use crate::fault::VerFault;
use crate::place::put_place;
use crate::walk::put_walk;
use fir_base::{MemoryOut, Name, Seq, put_decimal, put_hex_byte};
use ver_ast::VPlace;

/// Appends the evidence of a fault.
pub fn put_evidence(out: &mut Vec<u8>, fault: &VerFault) -> Result<(), MemoryOut>
    ensures { OnOk result (out.new.items ≡ out.old.items ++ vevidence fault.now) }
{
    match fault {
        VerFault::Byte { place: _, byte } => put_byte(out, *byte),
        VerFault::Syntax { place: _ } => put_word(out, b"syntax"),
        VerFault::Undeclared { place: _, name } => put_name(out, b"undeclared ", name),
        VerFault::Width {
            place: _,
            needed,
            found,
        } => put_widths(out, *needed, *found),
        VerFault::Kind { place: _ } => put_word(out, b"kind"),
        VerFault::Twice {
            place: _,
            name,
            first,
        } => put_twice(out, name, *first),
        VerFault::Loop { place: _, walk } => put_loop(out, walk),
        VerFault::Depth { place: _ } => put_word(out, b"depth 257"),
        VerFault::Undriven { place: _, name } => put_name(out, b"undriven ", name),
    }
}

fn put_word(out: &mut Vec<u8>, word: &[u8]) -> Result<(), MemoryOut>
    ensures { OnOk result (out.new.items ≡ out.old.items ++ word.now) }
{
    out.extend_from_slice(word)?;
    Ok(())
}

fn put_name(out: &mut Vec<u8>, word: &[u8], name: &Name) -> Result<(), MemoryOut>
    ensures { OnOk result (out.new.items ≡ out.old.items ++ (word.now ++ name.now)) }
{
    out.extend_from_slice(word)?;
    out.extend_from_slice(name.as_bytes())?;
    Ok(())
}

fn put_byte(out: &mut Vec<u8>, byte: u8) -> Result<(), MemoryOut>
    ensures { OnOk result (out.new.items ≡ out.old.items ++ (codes "byte " ++ byte_text byte)) }
{
    out.extend_from_slice(b"byte ")?;
    put_hex_byte(out, byte)
}

fn put_widths(out: &mut Vec<u8>, needed: u32, found: u32) -> Result<(), MemoryOut>
    ensures { OnOk result (out.new.items ≡ out.old.items ++ (codes "width " ++ decimal needed ++ codes " " ++ decimal found)) }
{
    out.extend_from_slice(b"width ")?;
    put_decimal(out, u128::from(needed))?;
    out.extend_from_slice(b" ")?;
    put_decimal(out, u128::from(found))
}

fn put_twice(out: &mut Vec<u8>, name: &Name, first: VPlace) -> Result<(), MemoryOut>
    ensures { OnOk result (out.new.items ≡ out.old.items ++ (codes "twice " ++ name.now ++ codes " " ++ vplace_text first)) }
{
    put_name(out, b"twice ", name)?;
    out.extend_from_slice(b" ")?;
    put_place(out, first)
}

fn put_loop(out: &mut Vec<u8>, walk: &Seq<Name>) -> Result<(), MemoryOut>
    ensures { OnOk result (out.new.items ≡ out.old.items ++ (codes "loop " ++ walk_text walk.now)) }
{
    out.extend_from_slice(b"loop ")?;
    put_walk(out, walk.as_slice())
}
