//! Which Resets are asynchronous.

ghost use Rattle.std.specs.Prelude.{◌≡◌, true, unwrap_or, slice_get, false};

use fir_ast::LeafId;
use std::marker::Model;

/// Of each leaf that is a Reset, whether it is an AsyncReset; else it is a UInt of one bit (FIRRTL spec,
/// "Reset Inference").
#[derive(Drop)]
pub struct ResetMap {
    asynchronous: Vec<bool>,
}

impl Model for ResetMap {
    ghost use Rattle.std.specs.Prelude.{Bool, List};

    ghost Value = { List Bool };

    ghost view = { λ m. m.asynchronous.items };
}

impl ResetMap {
    /// The map of these.
    pub fn new(asynchronous: Vec<bool>) -> ResetMap
        ensures { result ≡ asynchronous.items }
    {
        ResetMap { asynchronous }
    }

    /// Whether a Reset is an AsyncReset.
    pub fn is_asynchronous(&self, leaf: LeafId) -> bool
        ensures { result ≡ unwrap_or (slice_get self.now leaf) false }
    {
        match self.asynchronous.get(leaf.number()) {
            Some(asynchronous) => *asynchronous,
            None => false,
        }
    }
}
