//! Laws about the definitions, each the contract of a function that does nothing.

ghost use Rattle.ver_read.specs.working.Laws.{RefusedIsNotValid, WrittenIsReadBack};

use ver_ast::{places_count_for_nothing, spells_one_tree};
use ver_check::{faultless_is_valid, valid_is_shallow};
use ver_emit::layout_is_spelled;
use ver_loop::loops_have_no_order;
use ver_parse::laws::no_tree_beside_a_fault;

/// A text that is refused for a fault spells no valid tree.
pub fn refused_is_not_valid()
    ensures { RefusedIsNotValid }
{
    spells_one_tree();
    faultless_is_valid();
    valid_is_shallow();
    loops_have_no_order();
    no_tree_beside_a_fault();
}

/// What is written of a valid tree, whose names are spelled as names, is read back as that tree, places aside.
pub fn written_is_read_back()
    ensures { WrittenIsReadBack }
{
    spells_one_tree();
    places_count_for_nothing();
    layout_is_spelled();
    refused_is_not_valid();
}
