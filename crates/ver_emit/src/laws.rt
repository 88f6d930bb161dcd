//! The laws about the layout.

ghost use Rattle.ver_emit.specs.working.Laws.{LayoutIsSpelled, LayoutHasNoComment};

use ver_ast::tokens_are_read_step_by_step;

/// The layout of a valid tree, whose names are spelled as names, spells that tree.
pub fn layout_is_spelled()
    ensures { LayoutIsSpelled }
{
    tokens_are_read_step_by_step();
}

/// In the layout of a tree whose names are spelled as names no comment stands.
pub fn layout_has_no_comment()
    ensures { LayoutHasNoComment }
{}
