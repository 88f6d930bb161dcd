//! The arrays, the nets of their writes, and their blocks (IEEE 1364-2005, 4.9, 9.2.2, 9.8.1).

ghost use Rattle.std.specs.Prelude.{◌≡◌, ◌-◌, ◌++◌, ◌≤◌, IfOk, OnOk, map, flat_map, option_map, slice_get};
ghost use Rattle.fir_net_names.specs.working.LeafNamed.{name_at};
ghost use Rattle.ver_ast.specs.declared.tree.Item.TheVariants as item;
ghost use Rattle.ver_build.specs.Arranged.{block_item};
ghost use Rattle.ver_build.specs.working.Places.{along_writes, clock_in, guard_at};
ghost use Rattle.ver_build.specs.working.ArrayBlocks.{array_block, array_write_inners, block_of, clocked_writes, first_clock, guarded_write, tree_array, write_inners, written, written_on};

use crate::array_texts::{push_guard, read_width, write_condition};
use crate::items::{clock_name, source_at};
use crate::places::{Guard, Places};
use crate::right_sides::Inner;
use fir_ast::LeafId;
use fir_base::{MemoryOut, Name, Seq};
use fir_net::{Array, ArrayWrite, FlatNet};
use fir_net_names::NameTable;
use std::alloc::Global;
use ver_ast::{Array as TreeArray, Item, Write, Writing};

/// The array of a number.
fn array_at(net: &FlatNet, number: usize) -> Option<&Array>
    ensures { option_map (λ a. a.now) result ≡ slice_get net.now.arrays number }
{
    net.arrays.as_slice().get(number)
}

/// The arrays that have bits, in the order of the state.
pub fn put_arrays(
    alloc: Global,
    items: &mut Vec<Item>,
    net: &FlatNet,
    table: &NameTable,
) -> Result<(), MemoryOut>
    ensures { OnOk result (items.new.items ≡ items.old.items ++ flat_map (λ k. map item.Array (tree_array (slice_get net.now.arrays k) (name_at table.now.arrays k))) net.now.array_order) }
{
    let order = net.array_order.as_slice();
    for number in order {
        put_array(alloc, items, array_at(net, *number), table.array(*number))?;
    }
    Ok(())
}

fn put_array(
    alloc: Global,
    items: &mut Vec<Item>,
    array: Option<&Array>,
    name: Option<&Name>,
) -> Result<(), MemoryOut>
    ensures { OnOk result (items.new.items ≡ items.old.items ++ map item.Array (tree_array (option_map (λ a. a.now) array.entry) (option_map (λ n. n.now) name.entry))) }
{
    let (Some(array), Some(name)) = (array, name) else {
        return Ok(());
    };
    // A whole net has far fewer words.
    let Ok(last) = u32::try_from(array.words.saturating_sub(1)) else {
        return Err(MemoryOut);
    };
    let name = name.copy(alloc)?;
    items.push(Item::Array(TreeArray {
        width: array.width,
        last,
        name,
    }))?;
    Ok(())
}

/// The nets of writes that have them, in the order of the state.
pub fn put_write_inners(
    alloc: Global,
    inners: &mut Vec<Inner>,
    net: &FlatNet,
    places: &Places,
) -> Result<(), MemoryOut>
    ensures { OnOk result (inners.new.items ≡ inners.old.items ++ write_inners net.now places.now) }
{
    let order = net.array_order.as_slice();
    for number in order {
        put_guards(alloc, inners, net, places, *number, array_at(net, *number))?;
    }
    Ok(())
}

/// The nets of the writes of an array.
fn put_guards(
    alloc: Global,
    inners: &mut Vec<Inner>,
    net: &FlatNet,
    places: &Places,
    number: usize,
    array: Option<&Array>,
) -> Result<(), MemoryOut>
    ensures { OnOk result (inners.new.items ≡ inners.old.items ++ array_write_inners net.now places.now number (option_map (λ a. a.now) array.entry)) }
{
    match array {
        Some(array) => put_array_guards(alloc, inners, net, places, number, array),
        None => Ok(()),
    }
}

fn put_array_guards(
    alloc: Global,
    inners: &mut Vec<Inner>,
    net: &FlatNet,
    places: &Places,
    number: usize,
    array: &Array,
) -> Result<(), MemoryOut>
    ensures { OnOk result (inners.new.items ≡ inners.old.items
        ++ along_writes (λ j w. guarded_write net.now places.now array.now.words w (guard_at places.now.guards number j)) 0 array.now.writes) }
{
    let writes = array.writes.as_slice();
    for (j, write) in writes.iter().enumerate() {
        put_guard(
            alloc,
            inners,
            net,
            places,
            array.words,
            write,
            places.guard(number, j),
        )?;
    }
    Ok(())
}

/// The nets of a write, where it has them.
fn put_guard(
    alloc: Global,
    inners: &mut Vec<Inner>,
    net: &FlatNet,
    places: &Places,
    words: usize,
    write: &ArrayWrite,
    guard: Option<&Guard>,
) -> Result<(), MemoryOut>
    ensures { OnOk result (inners.new.items ≡ inners.old.items ++ guarded_write net.now places.now words write.now (option_map (λ g. g.now) guard.entry)) }
{
    let Some(guard) = guard else {
        return Ok(());
    };
    let address = places.held(alloc, write.address)?;
    let condition = places.held(alloc, write.condition)?;
    let width = read_width(net, write.address);
    push_guard(alloc, inners, (width, words), address, condition, guard)
}

/// The blocks of the arrays that are written on a clock, in the order of the state.
pub fn put_array_blocks(
    alloc: Global,
    items: &mut Vec<Item>,
    net: &FlatNet,
    table: &NameTable,
    places: &Places,
) -> Result<(), MemoryOut>
    ensures { OnOk result (items.new.items ≡ items.old.items ++ flat_map (λ k. map block_item (array_block net.now table.now places.now k (slice_get net.now.arrays k) (name_at table.now.arrays k))) net.now.array_order) }
{
    let order = net.array_order.as_slice();
    for number in order {
        put_array_block(
            alloc,
            items,
            net,
            table,
            places,
            *number,
            array_at(net, *number),
            table.array(*number),
        )?;
    }
    Ok(())
}

fn put_array_block(
    alloc: Global,
    items: &mut Vec<Item>,
    net: &FlatNet,
    table: &NameTable,
    places: &Places,
    number: usize,
    array: Option<&Array>,
    name: Option<&Name>,
) -> Result<(), MemoryOut>
    ensures { OnOk result (items.new.items ≡ items.old.items ++ map block_item (array_block net.now table.now places.now number (option_map (λ a. a.now) array.entry) (option_map (λ n. n.now) name.entry))) }
{
    let (Some(array), Some(name)) = (array, name) else {
        return Ok(());
    };
    put_writing(alloc, items, net, table, places, number, array, name)
}

/// The block of an array of that name, where it is written on a clock.
fn put_writing(
    alloc: Global,
    items: &mut Vec<Item>,
    net: &FlatNet,
    table: &NameTable,
    places: &Places,
    number: usize,
    array: &Array,
    name: &Name,
) -> Result<(), MemoryOut>
    ensures { OnOk result (items.new.items ≡ items.old.items
        ++ map block_item (block_of table.now (first_clock places.now array.now.writes) (clocked_writes net.now places.now number array.now name.now))) }
{
    if let Some(clock) = first_clock(places, array.writes.as_slice()) {
        let writes = clocked_writes(alloc, net, places, number, array, name)?;
        let clock = clock_name(alloc, table, clock)?;
        items.push(Item::Writing(Writing { clock, writes }))?;
    }
    Ok(())
}

/// The clock input of the first write that has one.
fn first_clock(places: &Places, writes: &[ArrayWrite]) -> Option<LeafId>
    ensures { result ≡ first_clock places.now writes.now }
{
    for write in writes {
        let clock = places.clock(write.clock);
        if clock.is_some() {
            return clock;
        }
    }
    None
}

/// The writes of an array that are on a clock, in their order.
fn clocked_writes(
    alloc: Global,
    net: &FlatNet,
    places: &Places,
    number: usize,
    array: &Array,
    name: &Name,
) -> Result<Seq<Write>, MemoryOut>
    ensures { IfOk result (λ ws. ws ≡ clocked_writes net.now places.now number array.now name.now) }
{
    let mut writes = Vec::new(alloc);
    let all = array.writes.as_slice();
    for (j, write) in all.iter().enumerate() {
        put_write(
            alloc,
            &mut writes,
            net,
            places,
            array.width,
            name,
            write,
            places.guard(number, j),
        )?;
    }
    Ok(Seq::from_vec(writes))
}

/// A write of an array with words of that width and that name, where it is on a clock.
fn put_write(
    alloc: Global,
    writes: &mut Vec<Write>,
    net: &FlatNet,
    places: &Places,
    width: u32,
    name: &Name,
    write: &ArrayWrite,
    guard: Option<&Guard>,
) -> Result<(), MemoryOut>
    ensures { OnOk result (writes.new.items ≡ writes.old.items
        ++ written_on net.now places.now name.now width (clock_in places.now.leaves write.now.clock) write.now (option_map (λ g. g.now) guard.entry)) }
{
    if places.clock(write.clock).is_some() {
        writes.push(written(alloc, net, places, width, name, write, guard)?)?;
    }
    Ok(())
}

/// A write of an array with words of that width and that name.
fn written(
    alloc: Global,
    net: &FlatNet,
    places: &Places,
    width: u32,
    name: &Name,
    write: &ArrayWrite,
    guard: Option<&Guard>,
) -> Result<Write, MemoryOut>
    ensures { IfOk result (λ w. w ≡ written net.now places.now name.now width write.now (option_map (λ g. g.now) guard.entry)) }
{
    let array = name.copy(alloc)?;
    let condition = write_condition(alloc, places.held(alloc, write.condition)?, guard)?;
    let index = source_at(alloc, places, read_width(net, write.address), write.address)?;
    let source = source_at(alloc, places, width, write.given)?;
    Ok(Write {
        condition,
        array,
        index,
        source,
    })
}
