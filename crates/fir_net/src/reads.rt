//! What a node reads.

ghost use Rattle.std.specs.Prelude.{◌≡◌, [], ◌∷◌, ◌++◌, OnOk};

use fir_ast::{LeafId, NodeId};
use fir_base::MemoryOut;
use smallvec::SmallVec;
use std::alloc::Global;
use std::hash::{Hash, Hasher};
use std::marker::Model;

/// A leaf or a node.
#[derive(Clone, Copy, PartialEq, Eq, Hash)]
pub enum Read {
    Leaf(LeafId),
    Node(NodeId),
}

/// What stands in the unused room of a short list of operands.
impl Default for Read {
    fn default() -> Read {
        Read::Leaf(LeafId::new(0))
    }
}

/// The operands of a node in order, which contracts see as a list.
#[derive(Drop)]
pub struct Reads {
    entries: SmallVec<Read, 2>,
}

impl Model for Reads {
    ghost use Rattle.std.specs.Prelude.{List};
    ghost use Rattle.fir_net.specs.declared.reads.Read.{Read};

    ghost Value = { List Read };

    ghost view = { λ r. r.entries.items };
}

impl Reads {
    /// No operands.
    pub fn new(alloc: Global) -> Reads
        ensures { result ≡ [] }
    {
        Reads {
            entries: SmallVec::new(alloc),
        }
    }

    /// Adds an operand behind the others.
    pub fn push(&mut self, read: Read) -> Result<(), MemoryOut>
        ensures { OnOk result (self.new ≡ self.old ++ read ∷ []) }
    {
        self.entries.push(read)?;
        Ok(())
    }

    /// The operands.
    pub fn as_slice(&self) -> &[Read]
        ensures { result.now ≡ self.now }
    {
        self.entries.as_slice()
    }
}

impl PartialEq for Reads {
    ghost use Rattle.std.specs.Cmp.Lexicographic.{lists_per};
    ghost use Rattle.fir_net.specs.contracts.reads.ReadPartialEq.TheImpl.Laws.{laws-law};
    ghost use Rattle.fir_net.specs.working.EqualNodes.{equal_reads};

    ghost eq = { equal_reads };

    ghost laws = { lists_per laws-law };

    fn eq(&self, other: &Reads) -> bool {
        self.entries == other.entries
    }
}

impl Eq for Reads {
    ghost use Rattle.std.specs.Cmp.Lexicographic.{lists_equiv};
    ghost use Rattle.fir_net.specs.contracts.reads.ReadEq.TheImpl.Laws.{laws-law};

    ghost laws = { lists_equiv laws-law };
}

impl Hash for Reads {
    ghost use Rattle.std.specs.Hash.{items_Alike};
    ghost use Rattle.fir_net.specs.contracts.reads.ReadHash.TheImpl.Laws.{respects_eq-law};
    ghost use Rattle.fir_net.specs.working.EqualNodes.{read_writes};

    ghost hash_input = { read_writes };

    ghost respects_eq = { (items_Alike (record { fed = respects_eq-law })).fed };

    fn hash<H: Hasher>(&self, state: &mut H) {
        self.entries.hash(state);
    }
}
