//! Operators.

ghost use Rattle.std.specs.Prelude.{◌≡◌, ◌++◌, OnOk};
ghost use Rattle.ver_ast.specs.Grammar.{unary_sign, unsigned_op};
ghost use Rattle.ver_emit.specs.Layout.{between_text, binary_text};

use fir_base::MemoryOut;
use ver_ast::{BinaryOp, SignedOp, UnaryOp};

/// The byte of an operator before its operand.
pub fn unary_byte(op: UnaryOp) -> u8
    ensures { result ≡ unary_sign op }
{
    match op {
        UnaryOp::Not => b'~',
        UnaryOp::And => b'&',
        UnaryOp::Or => b'|',
        UnaryOp::Xor => b'^',
    }
}

/// Appends an operator between its operands, with the spaces round it.
pub fn put_between(out: &mut Vec<u8>, op: BinaryOp) -> Result<(), MemoryOut>
    ensures { OnOk result (out.new.items ≡ out.old.items ++ between_text op) }
{
    out.extend_from_slice(b" ")?;
    out.extend_from_slice(binary_bytes(op))?;
    out.extend_from_slice(b" ")?;
    Ok(())
}

fn binary_bytes(op: BinaryOp) -> &'static [u8]
    ensures { result.now ≡ binary_text op }
{
    match op {
        BinaryOp::Add => b"+",
        BinaryOp::Sub => b"-",
        BinaryOp::Mul => b"*",
        BinaryOp::Div => b"/",
        BinaryOp::Rem => b"%",
        BinaryOp::And => b"&",
        BinaryOp::Or => b"|",
        BinaryOp::Xor => b"^",
        BinaryOp::Shl => b"<<",
        BinaryOp::Shr => b">>",
        BinaryOp::Eq => b"==",
        BinaryOp::Neq => b"!=",
        BinaryOp::Lt => b"<",
        BinaryOp::Leq => b"<=",
        BinaryOp::Gt => b">",
        BinaryOp::Geq => b">=",
    }
}

/// The operator that is written alike between operands without a sign.
pub fn unsigned_op(op: SignedOp) -> BinaryOp
    ensures { result ≡ unsigned_op op }
{
    match op {
        SignedOp::Div => BinaryOp::Div,
        SignedOp::Rem => BinaryOp::Rem,
        SignedOp::Lt => BinaryOp::Lt,
        SignedOp::Leq => BinaryOp::Leq,
        SignedOp::Gt => BinaryOp::Gt,
        SignedOp::Geq => BinaryOp::Geq,
    }
}
