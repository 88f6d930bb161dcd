//! The elements that dynamic indices may pick, with their conditions (FIRRTL spec, "Sub-accesses").

ghost use Rattle.std.specs.Prelude.{IfOk, IfSome, OnOk, length};
ghost use Rattle.fir_meaning.specs.working.TermValues.{Holds};
ghost use Rattle.fir_meaning.specs.working.Terms.{Picks};
ghost use Rattle.fir_merge.specs.working.Elements.{AddsElements, AddsFurther, ElementsBelow, ElementsStand};
ghost use Rattle.fir_merge.specs.working.Entries.{IndicesBelow, IndicesStand};
ghost use Rattle.fir_merge.specs.working.Made.{elements};
ghost use Rattle.fir_merge.specs.working.NodeTerms.{Grows, IsBelow};

use crate::bound::Bound;
use crate::index::Index;
use crate::indices::add_condition;
use crate::net_nodes::NetNodes;
use fir_base::MemoryOut;
use std::alloc::Global;

/// An element that indices may pick: how many leaves it is from the first one, and the condition that it is picked.
#[derive(Clone, Copy)]
pub struct Element {
    pub offset: usize,
    pub condition: Bound,
}

/// Adds the conditions of the elements that the indices may pick, in the order of the elements. Without indices
/// there are none. The indices come with the last first.
pub fn add_elements(
    alloc: Global,
    net: &mut NetNodes,
    indices: &[Index],
) -> Result<Vec<Element>, MemoryOut>
    requires { IndicesBelow (length net.old) indices.now }
    ensures { IfOk result (λ es. Grows net.old net.new × ElementsBelow (length net.new) es.items × ((holds : Holds) (ps : Picks) → IndicesStand holds net.old indices.now ps → ElementsStand holds net.new es.items (elements holds ps))) }
{
    match indices {
        [] => Ok(Vec::new(alloc)),
        [first] => {
            let mut found = Vec::new(alloc);
            push_elements(alloc, net, &None, 0, first, &mut found)?;
            Ok(found)
        }
        [index, before @ ..] => {
            let found = add_elements(alloc, net, before)?;
            add_further(alloc, net, &found, index)
        }
    }
}

/// Adds behind each element those of one more index.
fn add_further(
    alloc: Global,
    net: &mut NetNodes,
    found: &[Element],
    index: &Index,
) -> Result<Vec<Element>, MemoryOut>
    requires found { ElementsBelow (length net.old) found.now }
    requires index { IsBelow (length net.old) index.now.bound.read }
    ensures { IfOk result (λ es. AddsFurther net.old net.new found.now index.now es.items) }
{
    let mut further = Vec::new(alloc);
    for element in found {
        let earlier = Some(element.condition);
        push_elements(alloc, net, &earlier, element.offset, index, &mut further)?;
    }
    Ok(further)
}

/// Puts the elements of one more index, behind an element, where there is one, behind others.
fn push_elements(
    alloc: Global,
    net: &mut NetNodes,
    earlier: &Option<Bound>,
    first: usize,
    index: &Index,
    elements: &mut Vec<Element>,
) -> Result<(), MemoryOut>
    requires earlier { IfSome earlier.now (λ b. IsBelow (length net.old) b.read) }
    requires index { IsBelow (length net.old) index.now.bound.read }
    ensures { OnOk result (AddsElements net.old net.new earlier.now first index.now elements.old.items elements.new.items) }
{
    let length = index.length;
    let mut offset = first;
    let mut number = 0;
    while number < length {
        let condition = add_condition(alloc, net, *earlier, index.bound, number)?;
        elements.push(Element { offset, condition })?;
        offset = offset.checked_add(index.stride as usize).ok_or(MemoryOut)?;
        number += 1;
    }
    Ok(())
}
