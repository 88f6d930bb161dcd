//! What drives what in a statement: the source of a connect, the init of a register, and the expression of a
//! node (FIRRTL spec, "Connects", "Registers", "Nodes").

ghost use Rattle.std.specs.Prelude.{◌≡◌, ◌++◌, ℕ, List, OnOk, option_map};
ghost use Rattle.fir_ast.specs.Circuits.{CircuitTree};
ghost use Rattle.fir_ast.specs.Types.{DataType};
ghost use Rattle.fir_ast.specs.working.Views.{expr_of, reset_of, sink_of};
ghost use Rattle.fir_meaning.specs.Reaching.{Reached};
ghost use Rattle.fir_meaning.specs.TypedScopes.{TypedScope};
ghost use Rattle.fir_meaning.specs.SizedScopes.{SizedScope, sink_expression, sized_type};
ghost use Rattle.fir_meaning.specs.SizedTypes.{Sized};
ghost use Rattle.fir_meaning.specs.working.WellTyped.{HasType, Reaches, ResetIsLegal};
ghost use Rattle.fir_meaning.specs.WidthExpressions.{Rule, Width};
ghost use Rattle.fir_meaning.specs.WidthRules.{connect_rules, init_rules};
ghost use Rattle.fir_types.specs.working.ModuleNotes.{connect_notes, reset_notes};
ghost use Rattle.fir_types.specs.working.Notes.{Note as Meant, expression_notes};
ghost use Rattle.fir_width.specs.working.Sides.{IsSide};
ghost use Rattle.fir_infer_widths.specs.working.Spots.{spots_of_reset, spots_of_sink, spots_within};
ghost use Rattle.fir_infer_widths.specs.working.Walks.{ComesStill, Enters, types_in};

use crate::expressions::{in_condition, in_expression, in_reference};
use crate::ground::Ground;
use crate::meet::connect;
use crate::walk::Walk;
use fir_ast::{Expr, Reference, RegisterReset};
use fir_base::MemoryOut;
use fir_width::Side;
use std::alloc::Global;

/// What is driven, and the expression that drives it.
pub fn in_driver<'a>(
    alloc: Global,
    ground: &Ground<'a>,
    walk: &mut Walk<'a>,
    driven: Side,
    driver: &'a Expr,
) -> Result<(), MemoryOut>
    ensures { (c : CircuitTree) (typed : TypedScope) (sized : SizedScope) (s : Sized) (t : DataType) (meant : List Width) (rules : List Rule) (rest : List Meant) → Enters ground.now typed sized meant rules (expression_notes typed (expr_of driver.now) ++ rest) walk.old → IsSide (types_in ground.now) meant driven s → HasType typed (expr_of driver.now) t → OnOk result (ComesStill c ground.now meant rules (connect_rules s (sized_type sized (expr_of driver.now))) rest (spots_within sized (expr_of driver.now)) walk.old walk.new) }
{
    let side = in_expression(driver, alloc, ground, walk)?;
    connect(&mut walk.arena, ground.table, driven, side)
}

/// What is connected, and what it asks for.
pub fn in_connect<'a>(
    alloc: Global,
    ground: &Ground<'a>,
    walk: &mut Walk<'a>,
    sink: &'a Reference,
    source: &'a Expr,
) -> Result<(), MemoryOut>
    ensures { (c : CircuitTree) (typed : TypedScope) (sized : SizedScope) (left : Reached) (t : DataType) (meant : List Width) (rules : List Rule) (rest : List Meant) → Enters ground.now typed sized meant rules (connect_notes typed (sink_of sink.now) (expr_of source.now) ++ rest) walk.old → Reaches typed (sink_of sink.now) left → HasType typed (expr_of source.now) t → OnOk result (ComesStill c ground.now meant rules (connect_rules (sized_type sized (sink_expression (sink_of sink.now))) (sized_type sized (expr_of source.now))) rest (spots_of_sink sized (sink_of sink.now) ++ spots_within sized (expr_of source.now)) walk.old walk.new) }
{
    let driven = in_reference(sink, alloc, ground, walk)?;
    in_driver(alloc, ground, walk, driven, source)
}

/// The reset of a register, which is as wide as its init.
pub fn in_reset<'a>(
    alloc: Global,
    ground: &Ground<'a>,
    walk: &mut Walk<'a>,
    register: Side,
    reset: &'a Option<RegisterReset>,
) -> Result<(), MemoryOut>
    ensures { (c : CircuitTree) (typed : TypedScope) (sized : SizedScope) (s : Sized) (t : DataType) (meant : List Width) (rules : List Rule) (rest : List Meant) → Enters ground.now typed sized meant rules (reset_notes typed (option_map reset_of reset.now) ++ rest) walk.old → IsSide (types_in ground.now) meant register s → ResetIsLegal typed t (option_map reset_of reset.now) → OnOk result (ComesStill c ground.now meant rules (init_rules s sized (option_map reset_of reset.now)) rest (spots_of_reset sized (option_map reset_of reset.now)) walk.old walk.new) }
{
    let Some(reset) = reset else {
        return Ok(());
    };
    in_condition(&reset.condition, alloc, ground, walk)?;
    in_driver(alloc, ground, walk, register, &reset.init)
}
