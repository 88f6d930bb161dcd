//! The source of a connect.

ghost use Rattle.std.specs.Prelude.{◌++◌, List, IfOk};
ghost use Rattle.fir_ast.specs.Types.{DataType};
ghost use Rattle.fir_ast.specs.working.Views.{expr_of};
ghost use Rattle.fir_meaning.specs.working.Leafed.{target_read, terms};
ghost use Rattle.fir_meaning.specs.TypedScopes.{TypedScope};
ghost use Rattle.fir_meaning.specs.working.WellTyped.{HasType};
ghost use Rattle.fir_types.specs.working.Notes.{Note as Meant, expression_notes};
ghost use Rattle.fir_ground.specs.working.Expressions.{ExpandsSource};
ghost use Rattle.fir_ground.specs.working.Grounds.{Enters};

use crate::expressions::{in_expression, in_reference};
use crate::ground::Ground;
use crate::reads::read_all;
use crate::walk::Walk;
use fir_ast::Expr;
use fir_base::MemoryOut;
use fir_leaf_pairs::Target;
use std::alloc::Global;

/// What a connect reads, and, where that is a reference, drives against the flow.
#[derive(Drop)]
pub struct Source {
    /// What it names, if it is a reference.
    pub target: Option<Target>,
    /// A node for each of its leaves.
    pub ids: Vec<usize>,
}

/// The source of a connect.
pub fn in_source<'a>(
    expr: &'a Expr,
    alloc: Global,
    ground: &Ground<'a>,
    walk: &mut Walk<'a>,
) -> Result<Source, MemoryOut>
    ensures { (typed : TypedScope) (t : DataType) (rest : List Meant) → Enters ground.now typed (expression_notes typed (expr_of expr.now) ++ rest) walk.old → HasType typed (expr_of expr.now) t → IfOk result (λ source. ExpandsSource ground.now rest walk.old walk.new source (target_read typed (expr_of expr.now)) (terms typed (expr_of expr.now))) }
{
    match expr {
        Expr::Ref(reference) => {
            let target = in_reference(reference, alloc, ground, walk)?;
            let ids = read_all(alloc, ground.table, &mut walk.nodes, target)?;
            Ok(Source {
                target: Some(target),
                ids,
            })
        }
        _ => {
            let ids = in_expression(expr, alloc, ground, walk)?;
            Ok(Source { target: None, ids })
        }
    }
}
