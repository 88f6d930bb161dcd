//! The law about closed walks, the contract of a function that does nothing.

ghost use Rattle.ver_loop.specs.working.Laws.{LoopsHaveNoOrder};

/// A tree without a fault of V03, V04, V05 and V08 in which a fault of V06 shows has no order of its processes in which
/// each stands once, after all that it reads.
pub fn loops_have_no_order()
    ensures { LoopsHaveNoOrder }
{}
