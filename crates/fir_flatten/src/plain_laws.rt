//! What the circuit of a design is, of which no clock is unclear.

ghost use Rattle.fir_flatten.specs.working.Laws.{DesignsArePlain};

use fir_copies::{designs_are_driven, designs_are_typed, designs_have_typed_memories};
use fir_design::has_one_tree;
use fir_leaf::{
    arrays_have_bits, arrays_stand_once, leafed_ports_show_no_state, no_array_is_left_out,
    no_word_is_left_out, words_show_state, words_stand_once,
};

/// The circuit of a design, whose modules have types, also of their memories, and are driven, is plain where none of its
/// clocks is unclear: its terms have types and read its own leaves, each leaf that gets a clock gets it from one leaf or
/// from none, and its words are its registers and pipes (FIRRTL spec, "Circuits", "Instances", "Memories", "Clock Type").
pub fn designs_are_plain()
    ensures { DesignsArePlain }
{
    has_one_tree();
    designs_are_typed();
    designs_have_typed_memories();
    designs_are_driven();
    words_show_state();
    no_word_is_left_out();
    words_stand_once();
    leafed_ports_show_no_state();
    no_array_is_left_out();
    arrays_stand_once();
    arrays_have_bits();
}
