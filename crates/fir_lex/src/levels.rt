//! Levels of indentation, the innermost last.

ghost use Rattle.std.specs.Prelude.{◌≡◌, ◌++◌, IfOk, OnOk, reverse};
ghost use Rattle.fir_lex.specs.working.Levels.{innermost, move_to};
ghost use Rattle.fir_lex.specs.working.Lexed.{closed_at};
ghost use Rattle.fir_lex.specs.working.Steps.{tokens_in, moved, MovesTo};

use crate::draft::Draft;
use crate::token::Kind;
use fir_ast::Place;
use fir_base::MemoryOut;

fn innermost(levels: &[u32]) -> u32
    ensures { result ≡ innermost (reverse levels.now) }
{
    match levels.last() {
        Some(level) => *level,
        None => 0,
    }
}

/// Opens or closes levels at the place for a line of so many spaces. False where it meets no open level.
pub fn move_to(
    levels: &mut Vec<u32>,
    draft: &mut Draft,
    spaces: u32,
    place: Place,
) -> Result<bool, MemoryOut>
    ensures text { draft.new.text.items ≡ draft.old.text.items }
    ensures moves { IfOk result (λ met. MovesTo met (moved (tokens_in draft.old) place (move_to spaces (reverse levels.old.items))) (tokens_in draft.new) (reverse levels.new.items)) }
{
    if innermost(levels.as_slice()) < spaces {
        levels.push(spaces)?;
        draft.push_bare(Kind::LevelOpens, place)?;
        return Ok(true);
    }
    while spaces < innermost(levels.as_slice()) {
        levels.pop();
        draft.push_bare(Kind::LevelCloses, place)?;
    }
    Ok(innermost(levels.as_slice()) == spaces)
}

/// Closes the levels, at the place.
pub fn close(levels: &[u32], draft: &mut Draft, place: Place) -> Result<(), MemoryOut>
    ensures text { draft.new.text.items ≡ draft.old.text.items }
    ensures tokens { OnOk result (tokens_in draft.new ≡ tokens_in draft.old ++ closed_at place levels.now) }
{
    for _level in levels {
        draft.push_bare(Kind::LevelCloses, place)?;
    }
    Ok(())
}
