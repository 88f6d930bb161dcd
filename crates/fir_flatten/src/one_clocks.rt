//! The clocks of the arrays of a flat net.

ghost use Rattle.fir_flatten.specs.working.Laws.{DesignsHaveOneClocks};

use fir_copies::{copies_give_all, copies_stand};
use fir_design::has_one_tree;
use fir_elaborate::arrays_are_of_modules;
use fir_memory_types::clocks_are_of_memories;

/// Where in each module of a design all ports of a memory that have a clock have the same one, the drivers of the clocks
/// of all that reads an array of its flat net at edges, and of all that writes it, end at one clock input, where they end
/// at all (FIRRTL spec, "Memories", "Clock Type", "Instances").
pub fn designs_have_one_clocks()
    ensures { DesignsHaveOneClocks }
{
    has_one_tree();
    copies_stand();
    copies_give_all();
    arrays_are_of_modules();
    clocks_are_of_memories();
}
