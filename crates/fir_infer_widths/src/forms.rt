//! The numbers of a form, behind those of its operands.

ghost use Rattle.std.specs.Prelude.{◌≡◌, ◌++◌, ℕ, List, [], ◌∷◌, IfOk, length};
ghost use Rattle.fir_ast.specs.Circuits.{CircuitTree};
ghost use Rattle.fir_ast.specs.Expressions.{Expression, Expressions, literal as written, mux, operation, validif};
ghost use Rattle.fir_ast.specs.Types.{DataType};
ghost use Rattle.fir_meaning.specs.TypeKinds.{bare};
ghost use Rattle.fir_meaning.specs.TypedScopes.{TypedScope};
ghost use Rattle.fir_meaning.specs.SizedOperations.{first_sized, is_signed, operation_width, result_scalar};
ghost use Rattle.fir_meaning.specs.SizedScopes.{SizedScope, literal_width as width_of, sized_type, sized_types};
ghost use Rattle.fir_meaning.specs.SizedTypes.{Sized, bare_type, scalar};
ghost use Rattle.fir_meaning.specs.working.WellTyped.{HasType};
ghost use Rattle.fir_meaning.specs.WidthExpressions.{Rule, Width};
ghost use Rattle.fir_type_table.specs.working.Tables.{types_of};
ghost use Rattle.fir_types.specs.working.Notes.{Note as Meant, expression_note};
ghost use Rattle.fir_types.specs.working.Seen.{found_type};
ghost use Rattle.fir_infer_widths.specs.declared.ground.Ground.{Ground as GroundOfCode};
ghost use Rattle.fir_width.specs.declared.side.Side.{Side as SideOfCode};
ghost use Rattle.fir_infer_widths.specs.working.Choices.{IsChosen};
ghost use Rattle.fir_width.specs.working.FlatWidths.{flat};
ghost use Rattle.fir_infer_widths.specs.working.Numbered.{IsTermOf, Keeps};
ghost use Rattle.fir_infer_widths.specs.working.Operands.{HaveWidths};
ghost use Rattle.fir_width.specs.working.Sides.{IsSide};
ghost use Rattle.fir_infer_widths.specs.working.Spots.{of_expression};
ghost use Rattle.fir_infer_widths.specs.working.Walks.{AreSides, ComesTo, Enters, types_in};

use crate::ground::Ground;
use crate::integers::integer;
use crate::spot::{Spot, put_spot};
use crate::walk::Walk;
use fir_ast::{Literal, Place};
use fir_base::MemoryOut;
use fir_bits::{PrimOp, least_width};
use fir_least_widths::Term;
use fir_type_table::TypeTable;
use fir_types::found::{bare, sort};
use fir_types::{Found, Sort};
use fir_width::Side;

/// A literal without a width has the least that holds it.
pub fn on_literal<'a>(walk: &mut Walk<'a>, literal: &'a Literal) -> Result<Side, MemoryOut>
    ensures { (c : CircuitTree) (scene : GroundOfCode) (typed : TypedScope) (sized : SizedScope) (meant : List Width) (rules : List Rule) (rest : List Meant) → Enters scene typed sized meant rules (expression_note typed (written literal.now) ∷ rest) walk.old → IfOk result (ComesTo c scene meant rules rest (of_expression sized (written literal.now) ∷ []) (sized_type sized (written literal.now)) walk.old walk.new) }
{
    walk.pass_note();
    let first = walk.arena.push_known(literal_width(literal))?;
    put_spot(&mut walk.spots, Spot::Literal(literal, first))?;
    Ok(Side {
        found: Found::Number(literal.signed, None),
        first,
    })
}

fn literal_width(literal: &Literal) -> u128
    ensures { result ≡ width_of literal.now }
{
    match literal.width {
        Some(width) => width,
        None => u128::from(least_width(literal.signed, literal.negative, literal.magnitude)),
    }
}

/// An operation on one operand or two.
pub fn on_operation<'a>(
    ground: &Ground<'a>,
    walk: &mut Walk<'a>,
    place: Place,
    op: PrimOp,
    operands: &[Side],
    integers: &'a [u128],
) -> Result<Side, MemoryOut>
    ensures { (c : CircuitTree) (typed : TypedScope) (sized : SizedScope) (es : Expressions) (t : DataType) (meant : List Width) (rules : List Rule) (rest : List Meant) → Enters ground.now typed sized meant rules (expression_note typed (operation place op es integers.now) ∷ rest) walk.old → HasType typed (operation place op es integers.now) t → AreSides (types_in ground.now) meant operands.now (sized_types sized es) → IfOk result (ComesTo c ground.now meant rules rest (of_expression sized (operation place op es integers.now) ∷ []) (sized_type sized (operation place op es integers.now)) walk.old walk.new) }
{
    walk.pass_note();
    let one = first_operand(operands);
    let signed = is_signed(ground.table, one);
    let term = operation_term(op, signed, operands, integers);
    let first = walk.arena.push(term)?;
    put_spot(
        &mut walk.spots,
        Spot::Operation(place, op, integers, one.first, first),
    )?;
    Ok(Side {
        found: result_found(op, signed),
        first,
    })
}

/// Whether an operand is an SInt.
#[tactic(auto, using(crate::proofs::OperationSides::sign_of_side))]
fn is_signed(table: &TypeTable, operand: Side) -> bool
    ensures { (s : Sized) → bare_type s ≡ bare (found_type (types_of table.now) operand.found) → result ≡ is_signed s }
{
    matches!(sort(table, operand.found), Sort::SInt)
}

fn first_operand(operands: &[Side]) -> Side
    ensures { (side : SideOfCode) (sides : List SideOfCode) → operands.now ≡ side ∷ sides → result ≡ side }
{
    match operands.first() {
        Some(side) => *side,
        None => Side::NOTHING,
    }
}

/// The operation on the numbers of its operands.
fn operation_term(op: PrimOp, signed: bool, operands: &[Side], integers: &[u128]) -> Term
    ensures { (meant : List Width) (ss : List Sized) → HaveWidths meant operands.now ss → signed ≡ is_signed (first_sized ss) → IsTermOf meant (operation_width op ss integers.now) result }
{
    match operands {
        [one] => Term::Single(
            op,
            signed,
            one.first,
            integer(integers, 0),
            integer(integers, 1),
        ),
        [one, other] => Term::Pair(op, signed, one.first, other.first),
        _ => Term::Known(0),
    }
}

/// Its type without a width.
fn result_found(op: PrimOp, signed: bool) -> Found
    ensures { (ts : List DataType) (w : Width) → bare_type (scalar (result_scalar op signed) w) ≡ bare (found_type ts result) }
{
    match op {
        PrimOp::AsAsyncReset => Found::AsyncReset,
        _ => Found::Number(op.is_signed(signed), None),
    }
}

/// A mux: leaf by leaf the greater width of its arms.
pub fn on_mux<'a>(
    ground: &Ground<'a>,
    walk: &mut Walk<'a>,
    place: Place,
    condition: Side,
    one: Side,
    other: Side,
) -> Result<Side, MemoryOut>
    ensures { (c : CircuitTree) (typed : TypedScope) (sized : SizedScope) (chooses a b : Expression) (t : DataType) (meant : List Width) (rules : List Rule) (rest : List Meant) → Enters ground.now typed sized meant rules (expression_note typed (mux place chooses a b) ∷ rest) walk.old → HasType typed (mux place chooses a b) t → IsSide (types_in ground.now) meant condition (sized_type sized chooses) → IsSide (types_in ground.now) meant one (sized_type sized a) → IsSide (types_in ground.now) meant other (sized_type sized b) → IfOk result (ComesTo c ground.now meant rules rest (of_expression sized (mux place chooses a b) ∷ []) (sized_type sized (mux place chooses a b)) walk.old walk.new) }
{
    walk.pass_note();
    let count = leaf_count(ground, walk, one);
    let greater = walk.arena.push_greater(one.first, other.first, count)?;
    let first = walk.arena.push_guarded(condition.first, greater, count)?;
    chosen(walk, place, true, one.found, first)
}

/// A validif: what it guards.
pub fn on_validif<'a>(
    ground: &Ground<'a>,
    walk: &mut Walk<'a>,
    place: Place,
    condition: Side,
    value: Side,
) -> Result<Side, MemoryOut>
    ensures { (c : CircuitTree) (typed : TypedScope) (sized : SizedScope) (chooses a : Expression) (t : DataType) (meant : List Width) (rules : List Rule) (rest : List Meant) → Enters ground.now typed sized meant rules (expression_note typed (validif place chooses a) ∷ rest) walk.old → HasType typed (validif place chooses a) t → IsSide (types_in ground.now) meant condition (sized_type sized chooses) → IsSide (types_in ground.now) meant value (sized_type sized a) → IfOk result (ComesTo c ground.now meant rules rest (of_expression sized (validif place chooses a) ∷ []) (sized_type sized (validif place chooses a)) walk.old walk.new) }
{
    walk.pass_note();
    let count = leaf_count(ground, walk, value);
    let first = walk
        .arena
        .push_guarded(condition.first, value.first, count)?;
    chosen(walk, place, false, value.found, first)
}

/// How many leaves a side has.
fn leaf_count(ground: &Ground, walk: &Walk, side: Side) -> usize
    ensures { (meant : List Width) (rules : List Rule) (s : Sized) → Keeps meant rules walk.now.arena → IsSide (types_in ground.now) meant side s → result ≡ length (flat s) }
{
    // Each has a number, so the count does not stand still.
    let _numbers = walk.arena.len();
    side.count(ground.table)
}

/// What a mux or a validif is, behind its numbers.
fn chosen(
    walk: &mut Walk,
    place: Place,
    is_mux: bool,
    found: Found,
    first: usize,
) -> Result<Side, MemoryOut>
    ensures { IfOk result (λ side. IsChosen place is_mux found first walk.old walk.new side) }
{
    let side = Side {
        found: bare(found),
        first,
    };
    put_spot(&mut walk.spots, Spot::Choice(place, is_mux, side))?;
    Ok(side)
}
