//! Laws about the definitions, each the contract of a function that does nothing.

ghost use Rattle.fir_net.specs.working.Laws.{NodesHaveTheirValues, NodesHaveTheirTypes, OrderedHasOne};

use fir_bits::laws::has_its_type;

/// The value of each node of a whole net is what it makes of the values of all leaves and nodes.
pub fn nodes_have_their_values()
    ensures { NodesHaveTheirValues }
{}

/// Where the leaves of a whole net have values of their widths, what can be read has a value of its type.
pub fn nodes_have_their_types()
    ensures { NodesHaveTheirTypes }
{
    has_its_type()
}

/// A whole net whose leaves and nodes have an order has exactly one choice of values at every state and tick.
pub fn ordered_has_one()
    ensures { OrderedHasOne }
{
    has_its_type()
}
