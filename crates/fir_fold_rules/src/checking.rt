//! Whether a term has a type.

ghost use Rattle.std.specs.Prelude.{◌≡◌, Ok, true};
ghost use Rattle.fir_bits.specs.working.Types.{typed};
ghost use Rattle.fir_net.specs.working.IsNet.{IsChoice, read_type};
ghost use Rattle.std.specs.Prelude.{[], ◌∷◌};
ghost use Rattle.fir_fold_rules.specs.working.Terms.{HasType};

use crate::lookups::read_type;
use crate::term::Term;
use fir_bits::{Bits, NumTy, PrimOp, result_type};
use fir_net::{Leaf, Node};
use indexmap::IndexSet;

/// Whether the term has that type over these leaves and nodes.
pub fn has_type(leaves: &[Leaf], nodes: &IndexSet<Node>, ty: NumTy, term: &Term) -> bool
    ensures { result ≡ true → HasType (read_type leaves.now nodes.now.keys) ty term.now }
{
    match term {
        Term::Read(read) => is_same(read_type(leaves, nodes, read), ty),
        Term::Number(number) => Bits::new(ty.width, *number).is_some(),
        Term::Single(op, a) => gives(*op, &[read_type(leaves, nodes, a)], &[], ty),
        Term::Pair(op, a, b) => {
            let types = [read_type(leaves, nodes, a), read_type(leaves, nodes, b)];
            gives(*op, &types, &[], ty)
        }
        Term::Integer(op, a, n) => gives(*op, &[read_type(leaves, nodes, a)], &[*n], ty),
        Term::Range(op, a, n, m) => gives(*op, &[read_type(leaves, nodes, a)], &[*n, *m], ty),
        Term::Mux(c, a, b) => is_choice(
            ty,
            read_type(leaves, nodes, c),
            read_type(leaves, nodes, a),
            read_type(leaves, nodes, b),
        ),
    }
}

fn is_same(a: NumTy, b: NumTy) -> bool
    ensures { result ≡ true → a ≡ b }
{
    a.signed == b.signed && a.width == b.width
}

/// Whether the operation has that type on operands of these types.
fn gives(op: PrimOp, types: &[NumTy], integers: &[u128], ty: NumTy) -> bool
    ensures { result ≡ true → typed op types.now integers.now ≡ Ok ty }
{
    match result_type(op, types, integers) {
        Ok(found) => is_same(found, ty),
        Err(_) => false,
    }
}

/// Whether a mux of that type chooses between values of these two types under a condition of that one.
fn is_choice(ty: NumTy, condition: NumTy, one: NumTy, zero: NumTy) -> bool
    ensures { result ≡ true → IsChoice ty (condition ∷ one ∷ zero ∷ []) }
{
    !condition.signed
        && condition.width == 1
        && one.signed == ty.signed
        && zero.signed == ty.signed
        && ty.width == one.width.max(zero.width)
}
