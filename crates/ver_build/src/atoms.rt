//! Values as operands: at a width, beside others, and some of their bits (IEEE 1364-2005, 5.1.14, 5.2).

ghost use Rattle.std.specs.Prelude.{◌≡◌, ◌+◌, ◌-◌, ◌/◌, ◌%◌, ◌^◌, [], ◌∷◌, ◌++◌, IfOk, OnOk};
ghost use Rattle.ver_ast.specs.Atoms as tree;
ghost use Rattle.ver_build.specs.working.Operands.{selected, bits_of_net, kept_bits, top_bit, copies_of, zeros, extension, source_parts, parts, side_by_side, atom_at, net_field, source_field, field, shifted, amount};

use crate::held::{Held, Part, Source};
use fir_base::{MemoryOut, Name};
use fir_bits::mask;
use std::alloc::Global;
use ver_ast::{Atom, AtomForm, Constant};

/// A value at a width: extended by its own sign, or its low bits.
pub fn atom_at(alloc: Global, width: u32, held: Held) -> Result<Atom, MemoryOut>
    ensures { IfOk result (λ a. a ≡ atom_at width held) }
{
    let mut out = Vec::new(alloc);
    put_parts(alloc, &mut out, held.fit(width))?;
    side_by_side(alloc, out)
}

/// An amount of a shift, which has at least one bit.
pub fn amount(alloc: Global, held: Held) -> Result<Atom, MemoryOut>
    ensures { IfOk result (λ a. a ≡ amount held) }
{
    let width = held.width.max(1);
    atom_at(alloc, width, held)
}

/// Two values side by side, the first one's bits above.
pub fn joined(alloc: Global, a: Held, b: Held) -> Result<Atom, MemoryOut>
    ensures { IfOk result (λ r. r ≡ side_by_side (parts a ++ parts b)) }
{
    let mut out = Vec::new(alloc);
    put_parts(alloc, &mut out, a)?;
    put_parts(alloc, &mut out, b)?;
    side_by_side(alloc, out)
}

/// A value with so many zeros below it.
pub fn above_zeros(alloc: Global, held: Held, width: u32) -> Result<Atom, MemoryOut>
    ensures { IfOk result (λ r. r ≡ side_by_side (parts held ++ zeros width)) }
{
    let mut out = Vec::new(alloc);
    put_parts(alloc, &mut out, held)?;
    put_zeros(&mut out, width)?;
    side_by_side(alloc, out)
}

/// The bits of a value from `hi` down to `lo`, as many as `width`.
pub fn field(alloc: Global, width: u32, hi: u128, lo: u128, held: Held) -> Result<Atom, MemoryOut>
    ensures { IfOk result (λ r. r ≡ side_by_side (field width hi lo held)) }
{
    let mut out = Vec::new(alloc);
    put_field(alloc, &mut out, width, hi, lo, held)?;
    side_by_side(alloc, out)
}

/// The bits of a value without its low `by` ones, at least one: where none is left, the sign, or zero.
pub fn shifted(alloc: Global, width: u32, by: u128, held: Held) -> Result<Atom, MemoryOut>
    ensures { IfOk result (λ r. r ≡ side_by_side (shifted width by held)) }
{
    let mut out = Vec::new(alloc);
    put_shifted(alloc, &mut out, width, by, held)?;
    side_by_side(alloc, out)
}

fn put_shifted(
    alloc: Global,
    out: &mut Vec<Atom>,
    width: u32,
    by: u128,
    held: Held,
) -> Result<(), MemoryOut>
    ensures { OnOk result (out.new.items ≡ out.old.items ++ shifted width by held) }
{
    let top = u128::from(held.width).saturating_sub(1);
    if by < u128::from(held.width) {
        put_field(alloc, out, width, top, by, held)
    } else if held.signed && held.width != 0 {
        put_field(alloc, out, 1, top, top, held)
    } else {
        put_zeros(out, width)
    }
}

fn put_field(
    alloc: Global,
    out: &mut Vec<Atom>,
    width: u32,
    hi: u128,
    lo: u128,
    held: Held,
) -> Result<(), MemoryOut>
    ensures { OnOk result (out.new.items ≡ out.old.items ++ field width hi lo held) }
{
    put_source_field(alloc, out, held.signed, width, hi, lo, &held.source)
}

/// The bits from `hi` down to `lo`, as many as `width`, of a value that is extended by its sign or by zeros.
fn put_source_field(
    alloc: Global,
    out: &mut Vec<Atom>,
    signed: bool,
    width: u32,
    hi: u128,
    lo: u128,
    source: &Source,
) -> Result<(), MemoryOut>
    ensures { OnOk result (out.new.items ≡ out.old.items ++ source_field signed width hi lo source.now) }
{
    match source {
        Source::Number(value) => {
            let field = low_bits(width, shifted_right(value.bits(), lo));
            out.push(constant(width, field))?;
        }
        Source::Net(part) => put_net_field(alloc, out, signed, width, hi, lo, part)?,
    }
    Ok(())
}

/// The bits of a part from `hi` down to `lo`, as many as `width`: those of the net, and the sign or zeros above
/// them.
fn put_net_field(
    alloc: Global,
    out: &mut Vec<Atom>,
    signed: bool,
    width: u32,
    hi: u128,
    lo: u128,
    part: &Part,
) -> Result<(), MemoryOut>
    ensures { OnOk result (out.new.items ≡ out.old.items ++ net_field signed width hi lo part.now) }
{
    if u128::from(part.kept) <= lo {
        return put_extension(alloc, out, signed, part, width);
    }
    let lo = lo as u32;
    let top = hi.min(u128::from(part.kept - 1)) as u32;
    let above = width.saturating_sub((top + 1).saturating_sub(lo));
    put_extension(alloc, out, signed, part, above)?;
    out.push(bits_of_net(alloc, part, top, lo)?)?;
    Ok(())
}

/// What a value puts into a concatenation. One of no bits puts nothing.
fn put_parts(alloc: Global, out: &mut Vec<Atom>, held: Held) -> Result<(), MemoryOut>
    ensures { OnOk result (out.new.items ≡ out.old.items ++ parts held) }
{
    if held.width == 0 {
        Ok(())
    } else {
        put_source_parts(alloc, out, held.signed, held.width, &held.source)
    }
}

/// What a value of so many bits, at least one, puts into a concatenation.
fn put_source_parts(
    alloc: Global,
    out: &mut Vec<Atom>,
    signed: bool,
    width: u32,
    source: &Source,
) -> Result<(), MemoryOut>
    ensures { OnOk result (out.new.items ≡ out.old.items ++ source_parts signed width source.now) }
{
    match source {
        Source::Number(value) => out.push(constant(width, value.bits()))?,
        Source::Net(part) => {
            let above = width.saturating_sub(part.kept);
            put_extension(alloc, out, signed, part, above)?;
            out.push(kept_bits(alloc, part)?)?;
        }
    }
    Ok(())
}

/// What stands above the bits that count: copies of the sign, or zeros.
fn put_extension(
    alloc: Global,
    out: &mut Vec<Atom>,
    signed: bool,
    part: &Part,
    width: u32,
) -> Result<(), MemoryOut>
    ensures { OnOk result (out.new.items ≡ out.old.items ++ extension signed part.now width) }
{
    if width != 0 && signed {
        out.push(copies_of(alloc, width, top_bit(alloc, part)?)?)?;
    } else {
        put_zeros(out, width)?;
    }
    Ok(())
}

fn put_zeros(out: &mut Vec<Atom>, width: u32) -> Result<(), MemoryOut>
    ensures { OnOk result (out.new.items ≡ out.old.items ++ zeros width) }
{
    if width != 0 {
        out.push(constant(width, 0))?;
    }
    Ok(())
}

fn side_by_side(alloc: Global, mut parts: Vec<Atom>) -> Result<Atom, MemoryOut>
    ensures { IfOk result (λ a. a ≡ side_by_side parts.items) }
{
    if parts.is_empty() {
        return Ok(constant(0, 0));
    }
    let first = parts.remove(0);
    if parts.is_empty() {
        Ok(first)
    } else {
        Ok(Atom {
            form: AtomForm::Concat(Box::new(alloc, first)?, parts),
        })
    }
}

fn copies_of(alloc: Global, count: u32, atom: Atom) -> Result<Atom, MemoryOut>
    ensures { IfOk result (λ a. a ≡ copies_of count atom) }
{
    if count == 1 {
        Ok(atom)
    } else {
        Ok(Atom {
            form: AtomForm::Repeat(count, Box::new(alloc, atom)?),
        })
    }
}

/// The low bits of the net that count.
fn kept_bits(alloc: Global, part: &Part) -> Result<Atom, MemoryOut>
    ensures { IfOk result (λ a. a ≡ kept_bits part.now) }
{
    let name = part.name.copy(alloc)?;
    if part.own == part.kept {
        Ok(net(name))
    } else {
        Ok(selected(name, part.kept.saturating_sub(1), 0))
    }
}

/// The highest bit that counts.
fn top_bit(alloc: Global, part: &Part) -> Result<Atom, MemoryOut>
    ensures { IfOk result (λ a. a ≡ top_bit part.now) }
{
    let top = part.kept.saturating_sub(1);
    bits_of_net(alloc, part, top, top)
}

fn bits_of_net(alloc: Global, part: &Part, hi: u32, lo: u32) -> Result<Atom, MemoryOut>
    ensures { IfOk result (λ a. a ≡ bits_of_net part.now hi lo) }
{
    let name = part.name.copy(alloc)?;
    if part.own == 1 {
        Ok(net(name))
    } else {
        Ok(selected(name, hi, lo))
    }
}

fn selected(name: Name, hi: u32, lo: u32) -> Atom
    ensures { result ≡ selected name hi lo }
{
    let form = if hi == lo {
        AtomForm::BitSelect(name, lo)
    } else {
        AtomForm::PartSelect(name, hi, lo)
    };
    Atom { form }
}

/// A whole net.
pub fn net(name: Name) -> Atom
    ensures { result ≡ tree.net name }
{
    Atom {
        form: AtomForm::Net(name),
    }
}

/// A constant of that width.
pub fn constant(width: u32, number: u128) -> Atom
    ensures { result ≡ tree.constant width number }
{
    Atom {
        form: AtomForm::Constant(Constant {
            width,
            number: Some(number),
        }),
    }
}

/// The low bits of a number.
fn low_bits(width: u32, n: u128) -> u128
    ensures { result ≡ n % 2 ^ width }
{
    if width >= 128 { n } else { n & mask(width) }
}

/// The number without its low bits.
fn shifted_right(n: u128, by: u128) -> u128
    ensures { result ≡ n / 2 ^ by }
{
    if by >= 128 { 0 } else { n >> by }
}
