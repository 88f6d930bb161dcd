//! An order of a net.

ghost use Rattle.std.specs.Prelude.{◌≡◌, ◌++◌, IfOk};

use fir_base::{MemoryOut, Seq};
use fir_net::Read;
use std::marker::Model;

/// Every leaf and every node of a net once, each behind all that it hangs on.
#[derive(Drop)]
pub struct Order {
    entries: Seq<Read>,
}

impl Model for Order {
    ghost use Rattle.std.specs.Prelude.{List};
    ghost use Rattle.fir_net.specs.declared.reads.Read.{Read};

    ghost Value = { List Read };

    ghost view = { λ o. o.entries };
}

impl Order {
    /// The order in which these stand.
    pub fn from_vec(entries: Vec<Read>) -> Order
        ensures { result ≡ entries.items }
    {
        Order {
            entries: Seq::from_vec(entries),
        }
    }

    /// The order with these behind it, which has to be that of a net in which they come last.
    pub fn followed_by(self, more: &[Read]) -> Result<Order, MemoryOut>
        ensures { IfOk result (λ o. o ≡ self ++ more.now) }
    {
        let Order { entries } = self;
        let mut entries = entries.into_vec();
        entries.extend_from_slice(more)?;
        Ok(Order::from_vec(entries))
    }

    /// The leaves and nodes in their order.
    pub fn as_slice(&self) -> &[Read]
        ensures { result.now ≡ self.now }
    {
        self.entries.as_slice()
    }
}
