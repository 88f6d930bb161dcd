//! Always blocks.

ghost use Rattle.std.specs.Prelude.{◌≡◌, ◌++◌, OnOk, codes, flat_map};
ghost use Rattle.ver_ast.specs.AtomForms.{constant_number};
ghost use Rattle.ver_ast.specs.Atoms.{constant};
ghost use Rattle.ver_ast.specs.declared.tree.Item.TheVariants as item;
ghost use Rattle.ver_emit.specs.Layout.{atom_text, edge_text, else_text, item_text, write_text};

use crate::atom::{put_atom, put_constant};
use fir_base::{MemoryOut, Name};
use ver_ast::{Always, Atom, Edge, Resetting, Write, Writing};

/// A block that writes a register at each rising edge of a clock (IEEE 1364-2005, 9.2.2, 9.7.2).
pub fn put_always(out: &mut Vec<u8>, block: &Always) -> Result<(), MemoryOut>
    ensures { OnOk result (out.new.items ≡ out.old.items ++ item_text (item.Always block.now)) }
{
    out.extend_from_slice(b"  always @(posedge ")?;
    out.extend_from_slice(block.clock.as_bytes())?;
    out.extend_from_slice(b") ")?;
    put_write_to(out, &block.target, &block.source)?;
    out.extend_from_slice(b"\n")?;
    Ok(())
}

/// A block that writes a constant while its reset is 1 (IEEE 1364-2005, 9.4, 9.7.2).
pub fn put_resetting(out: &mut Vec<u8>, block: &Resetting) -> Result<(), MemoryOut>
    ensures { OnOk result (out.new.items ≡ out.old.items ++ item_text (item.Resetting block.now)) }
{
    put_edges(out, &block.edge, &block.reset)?;
    put_reset_write(out, block)?;
    put_else(out, &block.edge)?;
    out.extend_from_slice(b"\n")?;
    Ok(())
}

/// The edges at which a block with an asynchronous reset runs, up to its condition: those of its clock, where
/// it has one, and of its reset.
fn put_edges(out: &mut Vec<u8>, edge: &Option<Edge>, reset: &Name) -> Result<(), MemoryOut>
    ensures { OnOk result (out.new.items ≡ out.old.items ++ (codes "  always @(" ++ edge_text edge.now ++ codes "posedge " ++ reset.now ++ codes ") if (")) }
{
    out.extend_from_slice(b"  always @(")?;
    put_edge(out, edge)?;
    out.extend_from_slice(b"posedge ")?;
    out.extend_from_slice(reset.as_bytes())?;
    out.extend_from_slice(b") if (")?;
    Ok(())
}

fn put_edge(out: &mut Vec<u8>, edge: &Option<Edge>) -> Result<(), MemoryOut>
    ensures { OnOk result (out.new.items ≡ out.old.items ++ edge_text edge.now) }
{
    match edge {
        None => Ok(()),
        Some(edge) => {
            out.extend_from_slice(b"posedge ")?;
            out.extend_from_slice(edge.clock.as_bytes())?;
            out.extend_from_slice(b" or ")?;
            Ok(())
        }
    }
}

/// The condition, and what the block writes while it is 1.
fn put_reset_write(out: &mut Vec<u8>, block: &Resetting) -> Result<(), MemoryOut>
    ensures { OnOk result (out.new.items ≡ out.old.items ++ (block.now.tested ++ codes ") " ++ block.now.target ++ codes " <= " ++ atom_text (constant block.now.value.width (constant_number block.now.value)) ++ codes ";")) }
{
    out.extend_from_slice(block.tested.as_bytes())?;
    out.extend_from_slice(b") ")?;
    out.extend_from_slice(block.target.as_bytes())?;
    out.extend_from_slice(b" <= ")?;
    put_constant(out, block.value)?;
    out.extend_from_slice(b";")?;
    Ok(())
}

/// What it writes at an edge of its clock otherwise.
fn put_else(out: &mut Vec<u8>, edge: &Option<Edge>) -> Result<(), MemoryOut>
    ensures { OnOk result (out.new.items ≡ out.old.items ++ else_text edge.now) }
{
    match edge {
        None => Ok(()),
        Some(edge) => {
            out.extend_from_slice(b" else ")?;
            put_write_to(out, &edge.target, &edge.source)
        }
    }
}

/// A write of an operand to a register.
fn put_write_to(out: &mut Vec<u8>, target: &Name, source: &Atom) -> Result<(), MemoryOut>
    ensures { OnOk result (out.new.items ≡ out.old.items ++ (target.now ++ codes " <= " ++ atom_text source.now ++ codes ";")) }
{
    out.extend_from_slice(target.as_bytes())?;
    out.extend_from_slice(b" <= ")?;
    put_atom(out, source)?;
    out.extend_from_slice(b";")?;
    Ok(())
}

/// A block that writes an array at each rising edge of a clock (IEEE 1364-2005, 9.2.2, 9.8.1).
pub fn put_writing(out: &mut Vec<u8>, block: &Writing) -> Result<(), MemoryOut>
    ensures { OnOk result (out.new.items ≡ out.old.items ++ item_text (item.Writing block.now)) }
{
    out.extend_from_slice(b"  always @(posedge ")?;
    out.extend_from_slice(block.clock.as_bytes())?;
    out.extend_from_slice(b") begin")?;
    put_writes(out, block.writes.as_slice())?;
    out.extend_from_slice(b" end\n")?;
    Ok(())
}

fn put_writes(out: &mut Vec<u8>, writes: &[Write]) -> Result<(), MemoryOut>
    ensures { OnOk result (out.new.items ≡ out.old.items ++ flat_map write_text writes.now) }
{
    for write in writes {
        put_write(out, write)?;
    }
    Ok(())
}

/// A write of a word where a condition is 1.
fn put_write(out: &mut Vec<u8>, write: &Write) -> Result<(), MemoryOut>
    ensures { OnOk result (out.new.items ≡ out.old.items ++ write_text write.now) }
{
    out.extend_from_slice(b" if (")?;
    put_atom(out, &write.condition)?;
    out.extend_from_slice(b") ")?;
    out.extend_from_slice(write.array.as_bytes())?;
    out.extend_from_slice(b"[")?;
    put_atom(out, &write.index)?;
    out.extend_from_slice(b"] <= ")?;
    put_atom(out, &write.source)?;
    out.extend_from_slice(b";")?;
    Ok(())
}
