//! Where an expression stands.

ghost use Rattle.std.specs.Prelude.{◌≡◌};
ghost use Rattle.fir_ast.specs.working.Views.{expr_of};
ghost use Rattle.fir_meaning.specs.ExpressionPlaces.{place_of};

use fir_ast::{Expr, Place};

/// Where the first token of an expression stands.
pub fn place_of(expr: &Expr) -> Place
    ensures { result ≡ place_of (expr_of expr.now) }
{
    match expr {
        Expr::Ref(reference) => reference.place,
        Expr::Literal(literal) => literal.place,
        Expr::Op(place, _, _, _) | Expr::Mux(place, _, _, _) | Expr::Validif(place, _, _) => *place,
    }
}
