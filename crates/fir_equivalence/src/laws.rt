//! Laws about the definitions, each the contract of a function that does nothing.

ghost use Rattle.fir_equivalence.specs.working.Laws.{EquivalentOfEquivalent, RewrittenIsEquivalent};

use fir_net::laws::ordered_has_one;

/// Of two nets that have an order, the one that is the other written anew may stand in its place.
pub fn rewritten_is_equivalent()
    ensures { RewrittenIsEquivalent }
{
    ordered_has_one();
}

/// What stands in the place of what stands in the place of a net may stand in that net's place.
pub fn equivalent_of_equivalent()
    ensures { EquivalentOfEquivalent }
{}
