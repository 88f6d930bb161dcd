//! What blocks write at an edge. All that a block reads is a net, and no write changes the list of the nets: so each
//! block may write as it reads, and no room is needed for what is sampled.

ghost use Rattle.std.specs.Prelude.{◌≡◌, flat_map};
ghost use Rattle.fir_base.specs.Ticks.{rises};
ghost use Rattle.ver_sim.specs.working.FlatStates.{flat_one, flat_all};
ghost use Rattle.ver_sim.specs.working.Blocks.{IsRising, word_put, write_puts, edge_puts, block_puts, all_block_puts};

use crate::numbers::at;
use crate::operand::{Operand, number_of};

/// What a register takes at a rising edge of the clock of that number.
#[derive(Drop)]
pub struct EdgeTask {
    pub clock: usize,
    pub source: Operand,
}

/// A write of one of the `depth` words from `base` on, where the condition is 1.
#[derive(Drop)]
pub struct WriteTask {
    pub base: usize,
    pub depth: usize,
    pub condition: Operand,
    pub index: Operand,
    pub source: Operand,
}

/// A block by number. A word is named by its place in the state.
pub enum BlockTask {
    /// What a register takes at each rising edge.
    Plain {
        word: usize,
        edge: EdgeTask,
    },
    /// A register takes the value where the net is 1, and else what it takes at a rising edge.
    Resetting {
        reset: usize,
        value: u128,
        word: usize,
        edge: Option<EdgeTask>,
    },
    /// The writes of an array in their order, at each rising edge of the clock of that number.
    Writing {
        clock: usize,
        writes: Vec<WriteTask>,
    },
}

// Not derived, so that a drop is a call, which is proved once.
impl Drop for BlockTask {
    fn drop(self) {
        match self {
            BlockTask::Plain { word: _, edge: _ }
            | BlockTask::Resetting {
                reset: _,
                value: _,
                word: _,
                edge: _,
            }
            | BlockTask::Writing {
                clock: _,
                writes: _,
            } => {}
        }
    }
}

/// Whether the clock of that number is among the named ones, whose numbers rise.
pub fn is_named(named: &[usize], clock: usize) -> bool
    requires { IsRising named.now }
    ensures { result ≡ rises named.now clock }
{
    named.binary_search(&clock).is_ok()
}

/// Puts a word at a place of the `depth` words from `base` on; past the end it does nothing.
fn put_word(words: &mut [u128], base: usize, depth: usize, index: u128, word: u128)
    ensures { words.new ≡ flat_one (record { base = base; depth = depth; place = index; word = word }) words.old }
{
    if index < depth as u128 {
        let place = index as usize;
        if base <= words.len() && place < words.len() - base {
            words[base + place] = word;
        }
    }
}

/// Makes a write of an array whose condition is 1.
fn take_write(write: &WriteTask, values: &[u128], state: &mut [u128])
    ensures { state.new ≡ flat_all (write_puts values.now write.now) state.old }
{
    if number_of(&write.condition, values) == 1 {
        put_word(
            state,
            write.base,
            write.depth,
            number_of(&write.index, values),
            number_of(&write.source, values),
        );
    }
}

/// Makes the writes of an array in their order.
fn take_writes(writes: &[WriteTask], values: &[u128], state: &mut [u128])
    ensures { state.new ≡ flat_all (flat_map (write_puts values.now) writes.now) state.old }
{
    for write in writes {
        take_write(write, values, state);
    }
}

/// A register takes its source where its clock is named.
fn take_edge(edge: &EdgeTask, word: usize, named: &[usize], values: &[u128], state: &mut [u128])
    requires { IsRising named.now }
    ensures { state.new ≡ flat_all (edge_puts named.now values.now word edge.now) state.old }
{
    if is_named(named, edge.clock) {
        put_word(state, word, 1, 0, number_of(&edge.source, values));
    }
}

/// Makes the writes of a block that acts.
fn take_block(block: &BlockTask, named: &[usize], values: &[u128], state: &mut [u128])
    requires { IsRising named.now }
    ensures { state.new ≡ flat_all (block_puts named.now values.now block.now) state.old }
{
    match block {
        BlockTask::Plain { word, edge } => take_edge(edge, *word, named, values, state),
        BlockTask::Resetting {
            reset,
            value,
            word,
            edge,
        } => {
            if at(values, *reset) == 1 {
                put_word(state, *word, 1, 0, *value);
            } else if let Some(edge) = edge {
                take_edge(edge, *word, named, values, state);
            }
        }
        BlockTask::Writing { clock, writes } => {
            if is_named(named, *clock) {
                take_writes(writes.as_slice(), values, state);
            }
        }
    }
}

/// Makes the writes of all blocks that act.
pub fn take_blocks(blocks: &[BlockTask], named: &[usize], values: &[u128], state: &mut [u128])
    requires { IsRising named.now }
    ensures { state.new ≡ flat_all (all_block_puts named.now values.now blocks.now) state.old }
{
    for block in blocks {
        take_block(block, named, values, state);
    }
}
