//! What the nets of registers show after an edge.

ghost use Rattle.std.specs.Prelude.{◌≡◌, IfOk, OnOk, filter, not, slice_index, slice_set};
ghost use Rattle.fir_base.specs.Lists.{In};
ghost use Rattle.fir_base.specs.Words.{is_among};
ghost use Rattle.ver_ast.specs.declared.tree.Verilog.{Verilog as Tree};
ghost use Rattle.ver_ast.specs.Nets.{plain_regs, reg_net, reset_targets};
ghost use Rattle.ver_sim.specs.working.Pairs.{EachPair, Appends};
ghost use Rattle.ver_sim.specs.working.ShownWords.{words_put, IsShownOf};
ghost use Rattle.ver_sim.specs.working.Tables.{Know};

use crate::numbers::at;
use crate::tables::Tables;
use fir_base::MemoryOut;
use std::alloc::Global;
use ver_ast::{Item, Verilog};

/// A net that shows a word of the state.
#[derive(Clone, Copy)]
pub struct ShownWord {
    pub net: usize,
    pub word: usize,
}

/// The net takes the word.
fn show_word(shown: ShownWord, state: &[u128], values: &mut [u128])
    ensures { values.new ≡ slice_set values.old shown.net (slice_index state.now shown.word) }
{
    if shown.net < values.len() {
        values[shown.net] = at(state, shown.word);
    }
}

/// Each net takes its word.
pub fn show_words(shown: &[ShownWord], state: &[u128], values: &mut [u128])
    ensures { values.new ≡ words_put shown.now state.now values.old }
{
    for one in shown {
        show_word(*one, state, values);
    }
}

/// The registers without an asynchronous block, and their words.
pub fn shown_words(alloc: Global, tables: &Tables, v: &Verilog) -> Result<Vec<ShownWord>, MemoryOut>
    requires { Know v.now tables.now }
    ensures { IfOk result (λ found. EachPair (IsShownOf v.now) found.items (plain_regs v.now)) }
{
    let mut found = Vec::new(alloc);
    put_shown_words(tables, v, &mut found)?;
    Ok(found)
}

fn put_shown_words(tables: &Tables, v: &Verilog, out: &mut Vec<ShownWord>) -> Result<(), MemoryOut>
    requires { Know v.now tables.now }
    ensures { OnOk result (Appends (IsShownOf v.now) out.old.items out.new.items (plain_regs v.now)) }
{
    for item in v.items.as_slice() {
        put_shown_word(tables, item, out)?;
    }
    Ok(())
}

/// Appends a register without an asynchronous block.
fn put_shown_word(tables: &Tables, item: &Item, out: &mut Vec<ShownWord>) -> Result<(), MemoryOut>
    ensures { OnOk result ((v : Tree) → Know v tables.now → In v.items item.now → Appends (IsShownOf v) out.old.items out.new.items (filter (λ r. not (is_among (reset_targets v) r.0)) (reg_net item.now))) }
{
    if let Item::Reg(register) = item
        && !tables.is_reset(&register.name)
    {
        let net = tables.place(&register.name);
        let word = tables.span(&register.name).base;
        out.push(ShownWord { net, word })?;
    }
    Ok(())
}
