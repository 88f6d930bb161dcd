//! The names of inner nets, behind all names of the table.

ghost use Rattle.std.specs.Prelude.{◌≡◌, ◌+◌, ◌^◌, ◌≤◌, IfOk};
ghost use Rattle.ver_words.specs.Names.{IsName};
ghost use Rattle.fir_net_names.specs.Names.{IsInner, inner_name};
ghost use Rattle.fir_net_names.specs.working.TableNames.{table_names};

use crate::name_table::NameTable;
use crate::numbered::{Numbered, first_untaken};
use fir_base::MemoryOut;
use std::alloc::Global;

impl NameTable {
    /// The first name of an inner net, from that number on, that no port, register or array has: `_n0`, `_n1`
    /// and so on. Only memory can be wanting.
    pub fn inner(&self, alloc: Global, from: u128) -> Result<Numbered, MemoryOut>
        requires room { from + 2 ^ 64 ≤ 2 ^ 128 }
        ensures first { IfOk result (λ n. IsInner (table_names self.now) from n.number) }
        ensures named { IfOk result (λ n. n.name ≡ inner_name n.number) }
        ensures spelled { IfOk result (λ n. IsName n.name) }
        ensures near { IfOk result (λ n. n.number + 1 ≤ from + 2 ^ 63) }
    {
        first_untaken(alloc, &self.taken, b"_n", from)
    }
}
