//! A circuit with its widths.

ghost use Rattle.std.specs.Prelude.{◌≡◌, Some, IfOk, slice_get};
ghost use Rattle.fir_ast.specs.working.Views.{circuit_of};
ghost use Rattle.fir_meaning.specs.WidthExpressions.{Width, Widths as Assignment, width_under};
ghost use Rattle.fir_meaning.specs.WidthRules.{AreWidths};
ghost use Rattle.fir_width.specs.working.DeclaredWidths.{leaf_widths};
ghost use Rattle.fir_meaning.specs.working.WidthLaws.{FitsAll};
ghost use Rattle.fir_reset.specs.working.Inferred.{AreInferred};
ghost use Rattle.fir_width.specs.working.Fitting.{HasWidths};

use crate::by_number::width_at;
use fir_ast::LeafId;
use fir_bits::laws::monotone;
use fir_pass::Meant;
use fir_reset::ResetMap;
use fir_types::Typed;
use std::marker::Model;

/// A circuit in which no width is over 128 bits and none illegal, with the widths of its leaves and with
/// which of its Resets are asynchronous. Contracts see the tree that was given.
pub struct Fitted {
    typed: Typed,
    resets: ResetMap,
    widths: Vec<u32>,
}

// Not derived, so that a drop is a call, which is proved once.
impl Drop for Fitted {
    fn drop(self) {
        let Fitted {
            typed: _,
            resets: _,
            widths: _,
        } = self;
    }
}

impl Model for Fitted {
    ghost use Rattle.fir_ast.specs.declared.circuit.Circuit as tree;
    ghost use Rattle.fir_ast.specs.contracts.circuit.Circuit as contract;

    ghost Value = { tree.Circuit };

    ghost coded = { contract.the_row.coded };

    ghost use Rattle.fir_ast.specs.working.Views.{circuit_of};
    ghost use Rattle.fir_reset.specs.working.Inferred.{AreInferred};
    ghost use Rattle.fir_width.specs.working.Fitting.{HasWidths};

    ghost view = { λ f. f.typed };

    ghost invariant = { λ f. HasWidths (circuit_of f.typed) f.widths.items × AreInferred (circuit_of f.typed) f.resets };
}

impl Meant for Fitted {
    ghost use Rattle.fir_meaning.specs.working.Stages.{IsTreeOf};

    ghost is_of = { IsTreeOf };
}

impl Fitted {
    /// The circuit with these resets and widths, by the numbers of the leaves.
    pub fn new(typed: Typed, resets: ResetMap, widths: Vec<u32>) -> Fitted
        requires widths { HasWidths (circuit_of typed) widths.items }
        requires resets { AreInferred (circuit_of typed) resets }
        ensures { result ≡ typed }
    {
        Fitted {
            typed,
            resets,
            widths,
        }
    }

    /// The circuit with its types.
    pub fn typed(&self) -> &Typed
        ensures tree { result.now ≡ self.now }
        ensures fits { FitsAll (circuit_of self.now) }
    {
        &self.typed
    }

    /// Which Resets are asynchronous (FIRRTL spec, "Reset Inference").
    pub fn resets(&self) -> &ResetMap
        ensures { AreInferred (circuit_of self.now) result.now }
    {
        &self.resets
    }
}

/// The widths of leaves.
pub struct Widths;

impl Widths {
    /// The width of a leaf in bits, at most 128: the least that meets all rules, or the one that is written
    /// (FIRRTL spec, "Width Inference"). A Reset and an AsyncReset have 1, a Clock 0; behind the last leaf
    /// it is 0.
    pub fn of(fitted: &Fitted, leaf: LeafId) -> u32
        ensures { (e : Width) (w : Assignment) → slice_get (leaf_widths (circuit_of fitted.now)) leaf ≡ Some e → AreWidths (circuit_of fitted.now) w → result ≡ width_under e w }
    {
        monotone();
        width_at(fitted.widths.as_slice(), leaf.number())
    }
}
