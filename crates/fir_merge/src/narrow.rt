//! Nodes of literals and validifs. What is wider than 128 bits has no value, and counts as zero of no bits.

ghost use Rattle.std.specs.Prelude.{◌≡◌, ◌≤◌, IfOk, length};
ghost use Rattle.fir_meaning.specs.Values.{literal_value};
ghost use Rattle.fir_meaning.specs.Values.{literal_type};
ghost use Rattle.fir_merge.specs.working.NodeTerms.{IsBelow};
ghost use Rattle.fir_merge.specs.working.Bounds.{ChoiceStands, Grown, ValueStands};
ghost use Rattle.fir_merge.specs.working.NarrowTerms.{LiteralStands, ValidifStands};

use crate::bound::Bound;
use crate::net_nodes::NetNodes;
use crate::values::{add_choice, add_value, add_zero};
use fir_ast::Literal;
use fir_base::MemoryOut;
use fir_bits::{Bits, Num, NumTy, least_width};

/// The type of a literal: of the width that is written, or else of the least that holds its number. All widths
/// over 128 are 129.
fn literal_type(l: &Literal) -> NumTy
    ensures { result ≡ literal_type l.now }
{
    let width = match l.width {
        Some(width) => width.min(129) as u32,
        None => least_width(l.signed, l.negative, l.magnitude),
    };
    NumTy {
        signed: l.signed,
        width,
    }
}

/// The value of a literal of that type.
fn literal_value(l: &Literal, ty: NumTy) -> Num
    requires has_type { ty ≡ literal_type l.now }
    requires narrow { ty.width ≤ 128 }
    ensures { result ≡ literal_value l.now }
{
    Num {
        signed: ty.signed,
        value: Bits::of_integer(ty.width, l.negative, l.magnitude),
    }
}

/// Adds a literal.
pub fn add_literal(
    net: &mut NetNodes,
    literal: &Literal,
    nothing: Bound,
) -> Result<Bound, MemoryOut>
    requires { IsBelow (length net.old) nothing.read }
    ensures grown { IfOk result (Grown net.old net.new) }
    ensures stands { IfOk result (LiteralStands net.old net.new literal.now nothing) }
{
    let ty = literal_type(literal);
    if ty.width > 128 {
        return Ok(nothing);
    }
    let value = literal_value(literal, ty);
    Ok(add_value(net, value)?)
}

/// Adds the choice of a value where the condition is 1, and of zero where it is 0.
pub fn add_validif(
    net: &mut NetNodes,
    c: Bound,
    a: Bound,
    nothing: Bound,
) -> Result<Bound, MemoryOut>
    requires condition { IsBelow (length net.old) c.read }
    requires value { IsBelow (length net.old) a.read }
    requires nothing { IsBelow (length net.old) nothing.read }
    ensures grown { IfOk result (Grown net.old net.new) }
    ensures stands { IfOk result (ValidifStands net.old net.new c a nothing) }
{
    if a.ty.width > 128 {
        return Ok(nothing);
    }
    let zero = add_zero(net, a.ty)?;
    Ok(add_choice(net, c, a, zero)?)
}
