//! Laws about widths that are not written, each the contract of a function that does nothing.

ghost use Rattle.fir_meaning.specs.working.WidthLaws.{HasLeast, InferredExactly, LeastIsWithin, NodesAsInferred, OneLeast, OverIsExact, SizedAsTyped, WidthsGrow};

use fir_bits::laws::monotone;

/// Wider unknowns never make an expression narrower (FIRRTL spec, "Width Inference").
pub fn widths_grow()
    ensures { WidthsGrow }
{
    monotone();
}

/// Rules for widths have a least assignment.
pub fn has_least()
    ensures { HasLeast }
{
    monotone();
}

/// Rules for widths have one least assignment at most.
pub fn one_least()
    ensures { OneLeast }
{}

/// Some assignment that meets all rules keeps expressions within 128 bits exactly where the least one
/// does.
pub fn least_is_within()
    ensures { LeastIsWithin }
{
    monotone();
}

/// Under its least widths a circuit has nothing over 128 bits exactly where some assignment that meets
/// its rules leaves nothing over.
pub fn over_is_exact()
    ensures { OverIsExact }
{
    monotone();
}

/// No fault of resets or widths stands in a circuit exactly where no walk joins a UInt and an AsyncReset
/// through Resets, each width is within 128 bits, and all is legal (FIRRTL spec, "Reset Inference", "Width
/// Inference").
pub fn inferred_exactly()
    ensures { InferredExactly }
{
    monotone();
}

/// Where an expression has a type, its sized type is of the same shape: without widths both are one type.
pub fn sized_as_typed()
    ensures { SizedAsTyped }
{}

/// The node of such an expression has the leaves of the expression's type with numbers of its own;
/// what is written stays only below vectors of length 0 (FIRRTL spec, "Nodes", "Width Inference").
pub fn nodes_as_inferred()
    ensures { NodesAsInferred }
{}
