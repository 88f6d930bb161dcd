//! The right sides that mean operations (IEEE 1364-2005, 5.1).

ghost use Rattle.std.specs.Prelude.{◌≡◌, [], ◌∷◌, ◌++◌, IfOk, OnOk, map, slice_index, slice_index_or};
ghost use Rattle.ver_ast.specs.declared.tree.Rhs.TheVariants as right;
ghost use Rattle.ver_ast.specs.declared.tree.BinaryOp.TheVariants as binary;
ghost use Rattle.ver_ast.specs.declared.tree.UnaryOp.TheVariants as unary;
ghost use Rattle.ver_ast.specs.Atoms.{constant, net as named_net};
ghost use Rattle.ver_build.specs.working.Held.{no_bits, whole_net};
ghost use Rattle.ver_build.specs.working.Operands.{amount, atom_at, field, parts, shifted};
ghost use Rattle.ver_build.specs.working.Places.{held_of};
ghost use Rattle.ver_build.specs.working.Texts as text;
ghost use Rattle.ver_build.specs.working.Texts.{mux_rhs, helper};
ghost use Rattle.ver_build.specs.working.Built.{node_inners};

use crate::atoms::{above_zeros, amount, atom_at, constant, field, joined, net, shifted};
use crate::held::Held;
use crate::places::Places;
use fir_base::{MemoryOut, Name};
use fir_bits::PrimOp;
use fir_net::{Mux, Node, Operation, Read};
use std::alloc::Global;
use ver_ast::{Atom, BinaryOp, Rhs, SignedOp, UnaryOp};

/// A net of the tree: its name, its width in bits, and its right side.
#[derive(Drop)]
pub struct Inner {
    pub name: Name,
    pub width: u32,
    pub rhs: Rhs,
}

/// The nets of a node, the last of which has the given name and the node's value, and those before it the
/// names of the helpers.
pub fn node_inners(
    alloc: Global,
    places: &Places,
    node: &Node,
    helpers: &[Name],
    name: &Name,
) -> Result<Vec<Inner>, MemoryOut>
    ensures { IfOk result (λ v. v.items ≡ node_inners places.now node.now helpers.now name.now) }
{
    match node {
        Node::Literal(_) => Ok(Vec::new(alloc)),
        Node::Operation(o) => operation_inners(alloc, places, o, helpers, name),
        Node::Mux(m) => mux_inners(alloc, places, m, name),
    }
}

fn mux_inners(alloc: Global, places: &Places, m: &Mux, name: &Name) -> Result<Vec<Inner>, MemoryOut>
    ensures { IfOk result (λ v. v.items ≡ record { name = name.now; width = m.now.width; rhs = mux_rhs m.now.width (map (held_of places.now) m.now.reads) } ∷ []) }
{
    let name = name.copy(alloc)?;
    let rhs = choice(alloc, places, m)?;
    let width = m.width;
    one_inner(alloc, Inner { name, width, rhs })
}

fn operation_inners(
    alloc: Global,
    places: &Places,
    o: &Operation,
    helpers: &[Name],
    name: &Name,
) -> Result<Vec<Inner>, MemoryOut>
    ensures { IfOk result (λ v. v.items ≡ text.operation_inners o.now.op o.now.width
        (slice_index_or (map (held_of places.now) o.now.reads) 0 no_bits) (slice_index_or (map (held_of places.now) o.now.reads) 1 no_bits)
        (slice_index o.now.integers 0) (slice_index o.now.integers 1) helpers.now name.now) }
{
    let a = operand(alloc, places, o.reads.as_slice(), 0)?;
    let b = operand(alloc, places, o.reads.as_slice(), 1)?;
    computed_inners(alloc, o, a, b, helpers, name)
}

/// The operand of that number, or one of no bits.
fn operand(alloc: Global, places: &Places, reads: &[Read], k: usize) -> Result<Held, MemoryOut>
    ensures { IfOk result (λ h. h ≡ slice_index_or (map (held_of places.now) reads.now) k no_bits) }
{
    match reads.get(k) {
        Some(read) => places.held(alloc, *read),
        None => Ok(Held::no_bits()),
    }
}

fn choice(alloc: Global, places: &Places, m: &Mux) -> Result<Rhs, MemoryOut>
    ensures { IfOk result (λ r. r ≡ mux_rhs m.now.width (map (held_of places.now) m.now.reads)) }
{
    let reads = m.reads.as_slice();
    let condition = operand_at(alloc, places, reads, 0, 1)?;
    let high = operand_at(alloc, places, reads, 1, m.width)?;
    let low = operand_at(alloc, places, reads, 2, m.width)?;
    Ok(Rhs::Conditional(condition, high, low))
}

/// The operand of that number at a width.
fn operand_at(
    alloc: Global,
    places: &Places,
    reads: &[Read],
    k: usize,
    width: u32,
) -> Result<Atom, MemoryOut>
    ensures { IfOk result (λ atom. atom ≡ atom_at width (slice_index_or (map (held_of places.now) reads.now) k no_bits)) }
{
    atom_at(alloc, width, operand(alloc, places, reads, k)?)
}

/// The nets of an operation on these operands.
fn computed_inners(
    alloc: Global,
    o: &Operation,
    a: Held,
    b: Held,
    helpers: &[Name],
    name: &Name,
) -> Result<Vec<Inner>, MemoryOut>
    ensures { IfOk result (λ v. v.items
        ≡ text.operation_inners o.now.op o.now.width a b (slice_index o.now.integers 0) (slice_index o.now.integers 1) helpers.now name.now) }
{
    let r = o.width;
    match o.op {
        PrimOp::Div => division(
            alloc,
            (SignedOp::Div, BinaryOp::Div),
            r,
            a,
            b,
            helpers,
            name,
        ),
        PrimOp::Rem => division(
            alloc,
            (SignedOp::Rem, BinaryOp::Rem),
            r,
            a,
            b,
            helpers,
            name,
        ),
        _ => only_inner(alloc, o, a, b, name),
    }
}

/// The net of an operation that has no other.
fn only_inner(
    alloc: Global,
    o: &Operation,
    a: Held,
    b: Held,
    name: &Name,
) -> Result<Vec<Inner>, MemoryOut>
    ensures { IfOk result (λ v. v.items
        ≡ record { name = name.now; width = o.now.width; rhs = text.one_rhs o.now.op o.now.width a b (slice_index o.now.integers 0) (slice_index o.now.integers 1) } ∷ []) }
{
    let name = name.copy(alloc)?;
    let integers = o.integers.as_slice();
    let width = o.width;
    let rhs = one_rhs(alloc, o.op, width, a, b, at(integers, 0), at(integers, 1))?;
    one_inner(alloc, Inner { name, width, rhs })
}

/// The integer of that number, or 0.
fn at(integers: &[u128], k: usize) -> u128
    ensures { result ≡ slice_index integers.now k }
{
    integers.get(k).copied().unwrap_or(0)
}

fn one_inner(alloc: Global, inner: Inner) -> Result<Vec<Inner>, MemoryOut>
    ensures { IfOk result (λ v. v.items ≡ inner ∷ []) }
{
    let mut inners = Vec::new(alloc);
    inners.push(inner)?;
    Ok(inners)
}

/// The right side of an operation with one net, whose result has `r` bits.
fn one_rhs(
    alloc: Global,
    op: PrimOp,
    r: u32,
    a: Held,
    b: Held,
    n: u128,
    m: u128,
) -> Result<Rhs, MemoryOut>
    ensures { IfOk result (λ rhs. rhs ≡ text.one_rhs op r a b n m) }
{
    match op {
        PrimOp::Add => computed(alloc, BinaryOp::Add, r, a, b),
        PrimOp::Sub => computed(alloc, BinaryOp::Sub, r, a, b),
        PrimOp::Mul => computed(alloc, BinaryOp::Mul, r, a, b),
        PrimOp::Lt => compared(alloc, SignedOp::Lt, BinaryOp::Lt, a, b),
        PrimOp::Leq => compared(alloc, SignedOp::Leq, BinaryOp::Leq, a, b),
        PrimOp::Gt => compared(alloc, SignedOp::Gt, BinaryOp::Gt, a, b),
        PrimOp::Geq => compared(alloc, SignedOp::Geq, BinaryOp::Geq, a, b),
        PrimOp::Eq => computed(alloc, BinaryOp::Eq, compared_width(&a, &b), a, b),
        PrimOp::Neq => computed(alloc, BinaryOp::Neq, compared_width(&a, &b), a, b),
        PrimOp::Shl => shifted_up(alloc, r, a),
        PrimOp::Shr => cut_below(alloc, r, n, a),
        PrimOp::Dshl => shifted_up_by(alloc, r, a, b),
        PrimOp::Dshr => shifted_down(alloc, r, a, b),
        PrimOp::Neg => negated(alloc, r, a),
        PrimOp::Not => complemented(alloc, r, a),
        PrimOp::And => computed(alloc, BinaryOp::And, r, a, b),
        PrimOp::Or => computed(alloc, BinaryOp::Or, r, a, b),
        PrimOp::Xor => computed(alloc, BinaryOp::Xor, r, a, b),
        PrimOp::Andr => reduced(alloc, UnaryOp::And, 1, a),
        PrimOp::Orr => reduced(alloc, UnaryOp::Or, 0, a),
        PrimOp::Xorr => reduced(alloc, UnaryOp::Xor, 0, a),
        PrimOp::Cat => side_by_side(alloc, a, b),
        PrimOp::Bits => selected(alloc, r, n, m, a),
        PrimOp::Head => head(alloc, r, n, a),
        _ => copied(alloc, r, a),
    }
}

/// The value as it is, at that width.
fn copied(alloc: Global, r: u32, a: Held) -> Result<Rhs, MemoryOut>
    ensures { IfOk result (λ rhs. rhs ≡ text.copied r a) }
{
    Ok(Rhs::Atom(atom_at(alloc, r, a)?))
}

/// The value without its low `n` bits.
fn cut_below(alloc: Global, r: u32, n: u128, a: Held) -> Result<Rhs, MemoryOut>
    ensures { IfOk result (λ rhs. rhs ≡ text.joined (shifted r n a)) }
{
    Ok(Rhs::Atom(shifted(alloc, r, n, a)?))
}

fn shifted_up_by(alloc: Global, r: u32, a: Held, b: Held) -> Result<Rhs, MemoryOut>
    ensures { IfOk result (λ rhs. rhs ≡ right.Binary (atom_at r a) binary.Shl (amount b)) }
{
    let value = atom_at(alloc, r, a)?;
    Ok(Rhs::Binary(value, BinaryOp::Shl, amount(alloc, b)?))
}

fn negated(alloc: Global, r: u32, a: Held) -> Result<Rhs, MemoryOut>
    ensures { IfOk result (λ rhs. rhs ≡ right.Binary (constant r 0) binary.Sub (atom_at r a)) }
{
    let value = atom_at(alloc, r, a)?;
    Ok(Rhs::Binary(constant(r, 0), BinaryOp::Sub, value))
}

fn complemented(alloc: Global, r: u32, a: Held) -> Result<Rhs, MemoryOut>
    ensures { IfOk result (λ rhs. rhs ≡ right.Unary unary.Not (atom_at r a)) }
{
    Ok(Rhs::Unary(UnaryOp::Not, atom_at(alloc, r, a)?))
}

/// The bits of both, those of the first above.
fn side_by_side(alloc: Global, a: Held, b: Held) -> Result<Rhs, MemoryOut>
    ensures { IfOk result (λ rhs. rhs ≡ text.joined (parts a ++ parts b)) }
{
    Ok(Rhs::Atom(joined(alloc, a, b)?))
}

/// The bits from `n` down to `m`.
fn selected(alloc: Global, r: u32, n: u128, m: u128, a: Held) -> Result<Rhs, MemoryOut>
    ensures { IfOk result (λ rhs. rhs ≡ text.joined (field r n m a)) }
{
    Ok(Rhs::Atom(field(alloc, r, n, m, a)?))
}

fn computed(alloc: Global, o: BinaryOp, r: u32, a: Held, b: Held) -> Result<Rhs, MemoryOut>
    ensures { IfOk result (λ rhs. rhs ≡ text.computed o r a b) }
{
    Ok(Rhs::Binary(atom_at(alloc, r, a)?, o, atom_at(alloc, r, b)?))
}

/// The width at which operands are compared.
fn compared_width(a: &Held, b: &Held) -> u32
    ensures { result ≡ text.compared_width a.now b.now }
{
    a.width.max(b.width).max(1)
}

fn compared(alloc: Global, s: SignedOp, o: BinaryOp, a: Held, b: Held) -> Result<Rhs, MemoryOut>
    ensures { IfOk result (λ rhs. rhs ≡ text.compared s o a b) }
{
    let w = compared_width(&a, &b);
    between(alloc, s, o, w, a, atom_at(alloc, w, b)?)
}

/// An operator between a value and an operand of that width: the signed one where the value is an SInt.
fn between(
    alloc: Global,
    s: SignedOp,
    o: BinaryOp,
    w: u32,
    a: Held,
    b: Atom,
) -> Result<Rhs, MemoryOut>
    ensures { IfOk result (λ rhs. rhs ≡ text.between s o w a b) }
{
    let signed = a.signed;
    let a = atom_at(alloc, w, a)?;
    if signed {
        Ok(Rhs::Signed(a, s, b))
    } else {
        Ok(Rhs::Binary(a, o, b))
    }
}

/// One bit of all bits of a value; of no bits it is `none`.
fn reduced(alloc: Global, o: UnaryOp, none: u128, a: Held) -> Result<Rhs, MemoryOut>
    ensures { IfOk result (λ rhs. rhs ≡ text.reduced o none a) }
{
    let width = a.width;
    if width == 0 {
        Ok(Rhs::Atom(constant(1, none)))
    } else {
        Ok(Rhs::Unary(o, atom_at(alloc, width, a)?))
    }
}

fn shifted_up(alloc: Global, r: u32, a: Held) -> Result<Rhs, MemoryOut>
    ensures { IfOk result (λ rhs. rhs ≡ text.shifted_up r a) }
{
    let zeros = r.saturating_sub(a.width);
    Ok(Rhs::Atom(above_zeros(alloc, a, zeros)?))
}

fn shifted_down(alloc: Global, r: u32, a: Held, b: Held) -> Result<Rhs, MemoryOut>
    ensures { IfOk result (λ rhs. rhs ≡ text.shifted_down r a b) }
{
    let signed = a.signed;
    let (a, by) = (atom_at(alloc, r, a)?, amount(alloc, b)?);
    if signed {
        Ok(Rhs::SignedShift(a, by))
    } else {
        Ok(Rhs::Binary(a, BinaryOp::Shr, by))
    }
}

/// The high `n` bits.
fn head(alloc: Global, r: u32, n: u128, a: Held) -> Result<Rhs, MemoryOut>
    ensures { IfOk result (λ rhs. rhs ≡ text.head r n a) }
{
    let width = u128::from(a.width);
    let atom = field(
        alloc,
        r,
        width.saturating_sub(1),
        width.saturating_sub(n),
        a,
    )?;
    Ok(Rhs::Atom(atom))
}

/// The nets of a division: whether the divisor is zero, the divisor or else 1, the quotient or remainder, and
/// that or else 0.
fn division(
    alloc: Global,
    operators: (SignedOp, BinaryOp),
    r: u32,
    a: Held,
    b: Held,
    helpers: &[Name],
    name: &Name,
) -> Result<Vec<Inner>, MemoryOut>
    ensures { IfOk result (λ v. v.items ≡ text.division_inners operators.0 operators.1 r a b helpers.now name.now) }
{
    let w = r.max(a.width.max(b.width));
    let signed = a.signed;
    let mut inners = Vec::new(alloc);
    push_tested_divisor(alloc, &mut inners, w, b, helpers)?;
    push_quotient(alloc, &mut inners, operators, w, a, helpers)?;
    push_guarded(alloc, &mut inners, (r, w), signed, helpers, name)?;
    Ok(inners)
}

/// Appends the net that tells whether the divisor is zero, and that of the divisor, or else 1.
fn push_tested_divisor(
    alloc: Global,
    inners: &mut Vec<Inner>,
    w: u32,
    b: Held,
    helpers: &[Name],
) -> Result<(), MemoryOut>
    ensures { OnOk result (inners.new.items
        ≡ (inners.old.items ++ record { name = helper helpers.now 0; width = 1; rhs = text.zero_test w b } ∷ [])
        ++ record { name = helper helpers.now 1; width = w; rhs = text.divisor w (helper helpers.now 0) b } ∷ []) }
{
    push_zero_test(alloc, inners, w, b.copy(alloc)?, helpers)?;
    push_divisor(alloc, inners, w, b, helpers)
}

/// Appends the net that tells whether the divisor is zero.
fn push_zero_test(
    alloc: Global,
    inners: &mut Vec<Inner>,
    w: u32,
    b: Held,
    helpers: &[Name],
) -> Result<(), MemoryOut>
    ensures { OnOk result (inners.new.items ≡ inners.old.items ++ record { name = helper helpers.now 0; width = 1; rhs = text.zero_test w b } ∷ []) }
{
    let name = helper(alloc, helpers, 0)?;
    let rhs = zero_test(alloc, w, b)?;
    push_inner(inners, name, 1, rhs)
}

/// Appends the net of the divisor, or else 1.
fn push_divisor(
    alloc: Global,
    inners: &mut Vec<Inner>,
    w: u32,
    b: Held,
    helpers: &[Name],
) -> Result<(), MemoryOut>
    ensures { OnOk result (inners.new.items ≡ inners.old.items ++ record { name = helper helpers.now 1; width = w; rhs = text.divisor w (helper helpers.now 0) b } ∷ []) }
{
    let name = helper(alloc, helpers, 1)?;
    let rhs = divisor(alloc, w, b, helpers)?;
    push_inner(inners, name, w, rhs)
}

/// Appends the net of the quotient or remainder.
fn push_quotient(
    alloc: Global,
    inners: &mut Vec<Inner>,
    operators: (SignedOp, BinaryOp),
    w: u32,
    a: Held,
    helpers: &[Name],
) -> Result<(), MemoryOut>
    ensures { OnOk result (inners.new.items ≡ inners.old.items ++ record { name = helper helpers.now 2; width = w; rhs = text.between operators.0 operators.1 w a (named_net (helper helpers.now 1)) } ∷ []) }
{
    let name = helper(alloc, helpers, 2)?;
    let rhs = quotient(alloc, operators, w, a, helpers)?;
    push_inner(inners, name, w, rhs)
}

/// Appends the net of the division, which has the first of the widths: the quotient or remainder, which has the
/// second, or else 0.
fn push_guarded(
    alloc: Global,
    inners: &mut Vec<Inner>,
    widths: (u32, u32),
    signed: bool,
    helpers: &[Name],
    name: &Name,
) -> Result<(), MemoryOut>
    ensures { OnOk result (inners.new.items ≡ inners.old.items ++ record { name = name.now; width = widths.0; rhs = text.guarded widths.0 (helper helpers.now 0) (whole_net (helper helpers.now 2) signed widths.1) } ∷ []) }
{
    let own = name.copy(alloc)?;
    let rhs = guarded(alloc, widths, signed, helpers)?;
    push_inner(inners, own, widths.0, rhs)
}

/// Appends a net.
pub fn push_inner(
    inners: &mut Vec<Inner>,
    name: Name,
    width: u32,
    rhs: Rhs,
) -> Result<(), MemoryOut>
    ensures { OnOk result (inners.new.items ≡ inners.old.items ++ record { name = name; width = width; rhs = rhs } ∷ []) }
{
    inners.push(Inner { name, width, rhs })?;
    Ok(())
}

/// The name of that number, or one of no letters.
pub fn helper(alloc: Global, names: &[Name], k: usize) -> Result<Name, MemoryOut>
    ensures { IfOk result (λ n. n ≡ helper names.now k) }
{
    match names.get(k) {
        Some(name) => name.copy(alloc),
        None => Name::new(alloc, b""),
    }
}

fn zero_test(alloc: Global, w: u32, b: Held) -> Result<Rhs, MemoryOut>
    ensures { IfOk result (λ rhs. rhs ≡ text.zero_test w b) }
{
    Ok(Rhs::Binary(atom_at(alloc, w, b)?, BinaryOp::Eq, constant(w, 0)))
}

/// The divisor, or 1 where it is zero.
fn divisor(alloc: Global, w: u32, b: Held, helpers: &[Name]) -> Result<Rhs, MemoryOut>
    ensures { IfOk result (λ rhs. rhs ≡ text.divisor w (helper helpers.now 0) b) }
{
    let is_zero = helper(alloc, helpers, 0)?;
    let value = atom_at(alloc, w, b)?;
    Ok(Rhs::Conditional(net(is_zero), constant(w, 1), value))
}

/// The quotient or remainder by the net of the divisor.
fn quotient(
    alloc: Global,
    operators: (SignedOp, BinaryOp),
    w: u32,
    a: Held,
    helpers: &[Name],
) -> Result<Rhs, MemoryOut>
    ensures { IfOk result (λ rhs. rhs ≡ text.between operators.0 operators.1 w a (named_net (helper helpers.now 1))) }
{
    let divisor = helper(alloc, helpers, 1)?;
    between(alloc, operators.0, operators.1, w, a, net(divisor))
}

/// The quotient or remainder at the first of the widths, or 0 where the divisor is zero.
fn guarded(
    alloc: Global,
    widths: (u32, u32),
    signed: bool,
    helpers: &[Name],
) -> Result<Rhs, MemoryOut>
    ensures { IfOk result (λ rhs. rhs ≡ text.guarded widths.0 (helper helpers.now 0) (whole_net (helper helpers.now 2) signed widths.1)) }
{
    let is_zero = helper(alloc, helpers, 0)?;
    let held = Held::whole(helper(alloc, helpers, 2)?, signed, widths.1);
    let value = atom_at(alloc, widths.0, held)?;
    Ok(Rhs::Conditional(net(is_zero), constant(widths.0, 0), value))
}
