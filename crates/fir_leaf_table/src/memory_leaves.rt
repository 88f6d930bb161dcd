//! The leaves, the arrays and the clocks of a memory (FIRRTL spec, "Memories").

ghost use Rattle.std.specs.Prelude.{map};
ghost use Rattle.fir_ast.specs.declared.place.Place.{Place};
ghost use Rattle.fir_ast.specs.Statements as tree;
ghost use Rattle.fir_ast.specs.working.Views.{memory_part_of, named_of};
ghost use Rattle.fir_leaf_table.specs.working.Walks.{PassesStatement};

use crate::frame::Frame;
use crate::giver::Giver;
use crate::memory::memory_of;
use crate::memory_arrays::push_arrays;
use crate::memory_roles::{memory_roles, push_clocks};
use crate::places::Places;
use crate::push::push_leaves;
use crate::walk::Walk;
use fir_ast::Memory;
use fir_base::MemoryOut;
use std::alloc::Global;

/// A memory.
pub fn in_memory(
    alloc: Global,
    frame: &Frame,
    depth: usize,
    memory: &Memory,
    walk: &mut Walk,
) -> Result<(), MemoryOut>
    ensures { (place : Place) → PassesStatement frame.now (tree.memory place (named_of memory.now.ident) (map memory_part_of memory.now.fields.items)) depth walk.old walk.new result }
{
    let leaves = walk.leaves.len();
    let made = memory_of(
        alloc,
        &memory.fields,
        walk.declared,
        leaves,
        walk.arrays.len(),
    )?;
    walk.next_driver();
    push_arrays(alloc, &made, &mut walk.arrays)?;
    push_clocks(alloc, &made, &mut walk.memories)?;
    let roles = memory_roles(alloc, &made)?;
    push_leaves(
        alloc,
        frame,
        depth,
        &Places::Own(memory.ident.place),
        &Giver::Memory(&roles),
        walk,
    )
}
