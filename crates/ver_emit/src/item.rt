//! Items.

ghost use Rattle.std.specs.Prelude.{◌≡◌, ◌++◌, OnOk, codes, flat_map};
ghost use Rattle.ver_emit.specs.Layout.{item_text, range_text};

use crate::block::{put_always, put_resetting, put_writing};
use crate::range::put_range;
use crate::rhs::put_rhs;
use fir_base::{MemoryOut, put_decimal};
use ver_ast::{Array, Assign, Item, Net};

/// Appends the items, a line each.
pub fn put_items(out: &mut Vec<u8>, items: &[Item]) -> Result<(), MemoryOut>
    ensures { OnOk result (out.new.items ≡ out.old.items ++ flat_map item_text items.now) }
{
    for item in items {
        put_item(out, item)?;
    }
    Ok(())
}

fn put_item(out: &mut Vec<u8>, item: &Item) -> Result<(), MemoryOut>
    ensures { OnOk result (out.new.items ≡ out.old.items ++ item_text item.now) }
{
    match item {
        Item::Wire(net) => put_net(out, b"  wire ", net),
        Item::Reg(net) => put_net(out, b"  reg ", net),
        Item::Array(array) => put_array(out, array),
        Item::Assign(assign) => put_assign(out, assign),
        Item::Always(block) => put_always(out, block),
        Item::Resetting(block) => put_resetting(out, block),
        Item::Writing(block) => put_writing(out, block),
    }
}

/// A net behind the word that declares it.
fn put_net(out: &mut Vec<u8>, word: &[u8], net: &Net) -> Result<(), MemoryOut>
    ensures { OnOk result (out.new.items ≡ out.old.items ++ (word.now ++ range_text net.now.width ++ net.now.name ++ codes ";\n")) }
{
    out.extend_from_slice(word)?;
    put_range(out, net.width)?;
    out.extend_from_slice(net.name.as_bytes())?;
    out.extend_from_slice(b";\n")?;
    Ok(())
}

/// An array, with the number of its last word (IEEE 1364-2005, 4.9).
fn put_array(out: &mut Vec<u8>, array: &Array) -> Result<(), MemoryOut>
    ensures { OnOk result (out.new.items ≡ out.old.items ++ item_text (Item.Array array.now)) }
{
    out.extend_from_slice(b"  reg ")?;
    put_range(out, array.width)?;
    out.extend_from_slice(array.name.as_bytes())?;
    out.extend_from_slice(b" [0:")?;
    put_decimal(out, u128::from(array.last))?;
    out.extend_from_slice(b"];\n")?;
    Ok(())
}

fn put_assign(out: &mut Vec<u8>, assign: &Assign) -> Result<(), MemoryOut>
    ensures { OnOk result (out.new.items ≡ out.old.items ++ item_text (Item.Assign assign.now)) }
{
    out.extend_from_slice(b"  assign ")?;
    out.extend_from_slice(assign.target.as_bytes())?;
    out.extend_from_slice(b" = ")?;
    put_rhs(out, &assign.rhs)?;
    out.extend_from_slice(b";\n")?;
    Ok(())
}
