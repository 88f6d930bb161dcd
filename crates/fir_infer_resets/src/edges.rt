//! The lists of a graph.

ghost use Rattle.std.specs.Prelude.{OnOk};
ghost use Rattle.fir_infer_resets.specs.working.Adding.{AddsBoth, AddsOne};

use fir_base::MemoryOut;

/// Puts each into the list of the other.
pub fn put_both(graph: &mut Vec<Vec<usize>>, one: usize, other: usize) -> Result<(), MemoryOut>
    ensures { OnOk result (AddsBoth graph.old.items graph.new.items one other) }
{
    put(graph, one, other)?;
    put(graph, other, one)?;
    Ok(())
}

/// Puts the second into the list of the first.
fn put(graph: &mut Vec<Vec<usize>>, one: usize, other: usize) -> Result<(), MemoryOut>
    ensures { OnOk result (AddsOne graph.old.items graph.new.items one other) }
{
    if let Some(list) = graph.get_mut(one) {
        list.push(other)?;
    }
    Ok(())
}
