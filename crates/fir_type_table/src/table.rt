//! The table, whose contracts speak of its entries; `types_of` gives the types that they hold.

use crate::entry::Entry;
use std::marker::Model;

/// Types, each under an id.
pub struct TypeTable {
    pub(crate) entries: Vec<Entry>,
}

// Not derived, so that a drop is a call, which is proved once.
impl Drop for TypeTable {
    fn drop(self) {
        let TypeTable { entries: _ } = self;
    }
}

impl Model for TypeTable {
    ghost use Rattle.std.specs.Prelude.{List};
    ghost use Rattle.fir_type_table.specs.declared.entry.Entry.{Entry};
    ghost use Rattle.fir_type_table.specs.working.Fits.{IsTable};
    ghost use Rattle.fir_type_table.specs.contracts.entry.Entry as e;
    ghost use Rattle.std.specs.Coded.{codes};

    ghost Value = { List Entry };

    ghost coded = { Prim.hlevel (codes, e.the_row.coded) };

    ghost view = { λ t. t.entries.items };

    ghost invariant = { λ t. IsTable t.entries.items };
}
