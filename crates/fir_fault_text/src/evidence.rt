//! What a fault's line says behind the place.

ghost use Rattle.std.specs.Prelude.{◌≡◌, ◌++◌, OnOk, codes, decimal, flat_map, map};
ghost use Rattle.fir_ast.specs.working.CodeFaults.{evidence_text};
ghost use Rattle.fir_ast.specs.Texts.{hex_byte, outcome_text, place_text, separated, sign_text, type_text};
ghost use Rattle.fir_ast.specs.working.TypeViews.{type_of};

use crate::type_text::{put_type, put_word};
use crate::walk_text::{Text, put_choice, put_numbers, put_place, put_separated};
use fir_ast::{FirFault, Outcome, Place, Ty};
use fir_base::{MemoryOut, Name, Seq, put_decimal, put_hex_byte};

/// Appends the evidence of a fault.
pub fn put_evidence(out: &mut Vec<u8>, fault: &FirFault) -> Result<(), MemoryOut>
    ensures { OnOk result (out.new.items ≡ out.old.items ++ evidence_text fault.now) }
{
    match fault {
        FirFault::Byte(_, byte) => put_byte(out, *byte),
        FirFault::Indent(_, spaces) => put_number(out, b"indent ", u128::from(*spaces)),
        FirFault::Tab(_) => put_word(out, b"tab"),
        FirFault::BadLiteral(_) => put_word(out, b"literal"),
        FirFault::Syntax(_) => put_word(out, b"syntax"),
        FirFault::Unsupported(_, word) => put_name(out, b"unsupported ", word),
        FirFault::Depth(_) => put_word(out, b"depth 257"),
        FirFault::Version(_, first) => put_number(out, b"version ", *first),
        FirFault::Unknown(_, name) => put_name(out, b"unknown ", name),
        FirFault::Twice(_, name, first) => put_twice(out, name, *first),
        FirFault::NoModule(_, name) => put_name(out, b"no module ", name),
        FirFault::Recursive(_, walk) => put_walk(out, b"recursive ", b" > ", walk),
        FirFault::Kinds(_, types) => put_walk(out, b"kinds ", b"; ", types),
        FirFault::NoField(_, name) => put_name(out, b"field ", name),
        FirFault::Types(_, sink, source) => put_types(out, sink, source),
        FirFault::Flow(_, leaf) => put_name(out, b"flow ", leaf),
        FirFault::NotPassive(_, ty) => put_not_passive(out, ty),
        FirFault::OutOfRange(_, index, length) => put_out_of_range(out, *index, *length),
        FirFault::MemoryField(_, name, part) => put_memory_field(out, name, part),
        FirFault::Resets(_, walk) => put_walk(out, b"resets ", b" - ", walk),
        FirFault::Over(_, what) => put_name(out, b"width over 128 ", what),
        FirFault::PortWidth(_, leaf) => put_name(out, b"port width ", leaf),
        FirFault::Legality(_, word, numbers) => put_legality(out, word, numbers),
        FirFault::LiteralLegality(_, width, negative, size) => put_literal(
            out, *width, *negative, *size,
        ),
        FirFault::Condition(_, width) => put_number(out, b"condition width ", *width),
        FirFault::Cost(_, cost) => put_number(out, b"cost ", u128::from(*cost)),
        FirFault::Undriven(_, leaf, choice) => put_undriven(out, leaf, choice),
        FirFault::Clock(_, leaf, one, other) => put_clock(out, leaf, *one, *other),
        FirFault::MemoryClocks(_, leaf, one, other) => put_memory_clocks(out, leaf, one, other),
        FirFault::AsyncInit(_, walk) => put_walk(out, b"async init ", b" <- ", walk),
        FirFault::Loop(_, walk) => put_walk(out, b"loop ", b" <- ", walk),
    }
}

fn put_name(out: &mut Vec<u8>, words: &[u8], name: &Name) -> Result<(), MemoryOut>
    ensures { OnOk result (out.new.items ≡ out.old.items ++ (words.now ++ name.now)) }
{
    out.extend_from_slice(words)?;
    out.extend_from_slice(name.as_bytes())?;
    Ok(())
}

fn put_number(out: &mut Vec<u8>, words: &[u8], number: u128) -> Result<(), MemoryOut>
    ensures { OnOk result (out.new.items ≡ out.old.items ++ (words.now ++ decimal number)) }
{
    out.extend_from_slice(words)?;
    put_decimal(out, number)
}

fn put_walk<T: Text>(
    out: &mut Vec<u8>,
    words: &[u8],
    separator: &[u8],
    walk: &Seq<T>,
) -> Result<(), MemoryOut>
    ensures { OnOk result (out.new.items ≡ out.old.items ++ (words.now ++ separated separator.now (map T.text walk.now))) }
{
    out.extend_from_slice(words)?;
    put_separated(out, separator, walk.as_slice())
}

fn put_byte(out: &mut Vec<u8>, byte: u8) -> Result<(), MemoryOut>
    ensures { OnOk result (out.new.items ≡ out.old.items ++ (codes "byte " ++ hex_byte byte)) }
{
    out.extend_from_slice(b"byte ")?;
    put_hex_byte(out, byte)
}

fn put_twice(out: &mut Vec<u8>, name: &Name, first: Place) -> Result<(), MemoryOut>
    ensures { OnOk result (out.new.items ≡ out.old.items ++ (codes "twice " ++ name.now ++ codes " " ++ place_text first)) }
{
    put_name(out, b"twice ", name)?;
    out.extend_from_slice(b" ")?;
    put_place(out, first)
}

fn put_types(out: &mut Vec<u8>, sink: &Ty, source: &Ty) -> Result<(), MemoryOut>
    ensures { OnOk result (out.new.items ≡ out.old.items ++ (codes "types " ++ type_text (type_of sink.now) ++ codes "; " ++ type_text (type_of source.now))) }
{
    out.extend_from_slice(b"types ")?;
    put_type(out, sink)?;
    out.extend_from_slice(b"; ")?;
    put_type(out, source)
}

fn put_not_passive(out: &mut Vec<u8>, ty: &Ty) -> Result<(), MemoryOut>
    ensures { OnOk result (out.new.items ≡ out.old.items ++ (codes "not passive " ++ type_text (type_of ty.now))) }
{
    out.extend_from_slice(b"not passive ")?;
    put_type(out, ty)
}

fn put_out_of_range(out: &mut Vec<u8>, index: u128, length: u128) -> Result<(), MemoryOut>
    ensures { OnOk result (out.new.items ≡ out.old.items ++ (codes "index " ++ decimal index ++ codes " of " ++ decimal length)) }
{
    put_number(out, b"index ", index)?;
    put_number(out, b" of ", length)
}

fn put_memory_field(out: &mut Vec<u8>, name: &Name, part: &Name) -> Result<(), MemoryOut>
    ensures { OnOk result (out.new.items ≡ out.old.items ++ (codes "memory " ++ name.now ++ codes " " ++ part.now)) }
{
    put_name(out, b"memory ", name)?;
    put_name(out, b" ", part)
}

fn put_legality(out: &mut Vec<u8>, word: &Name, numbers: &Seq<u128>) -> Result<(), MemoryOut>
    ensures { OnOk result (out.new.items ≡ out.old.items ++ (codes "legality " ++ word.now ++ flat_map (λ n. codes " " ++ decimal n) numbers.now)) }
{
    put_name(out, b"legality ", word)?;
    put_numbers(out, numbers.as_slice())
}

fn put_literal(out: &mut Vec<u8>, width: u128, negative: bool, size: u128) -> Result<(), MemoryOut>
    ensures { OnOk result (out.new.items ≡ out.old.items ++ (codes "legality literal " ++ decimal width ++ codes " " ++ sign_text negative ++ decimal size)) }
{
    put_number(out, b"legality literal ", width)?;
    out.extend_from_slice(b" ")?;
    out.extend_from_slice(sign_of(negative))?;
    put_decimal(out, size)
}

fn sign_of(negative: bool) -> &'static [u8]
    ensures { result.now ≡ sign_text negative }
{
    if negative { b"-" } else { b"" }
}

fn put_undriven(out: &mut Vec<u8>, leaf: &Name, choice: &Seq<Outcome>) -> Result<(), MemoryOut>
    ensures { OnOk result (out.new.items ≡ out.old.items ++ (codes "undriven " ++ leaf.now ++ flat_map outcome_text choice.now)) }
{
    put_name(out, b"undriven ", leaf)?;
    put_choice(out, choice.as_slice())
}

fn put_clock(out: &mut Vec<u8>, leaf: &Name, one: Place, other: Place) -> Result<(), MemoryOut>
    ensures { OnOk result (out.new.items ≡ out.old.items ++ (codes "clock " ++ leaf.now ++ codes " " ++ place_text one ++ codes " " ++ place_text other)) }
{
    put_name(out, b"clock ", leaf)?;
    out.extend_from_slice(b" ")?;
    put_place(out, one)?;
    out.extend_from_slice(b" ")?;
    put_place(out, other)
}

fn put_memory_clocks(
    out: &mut Vec<u8>,
    leaf: &Name,
    one: &Name,
    other: &Name,
) -> Result<(), MemoryOut>
    ensures { OnOk result (out.new.items ≡ out.old.items ++ (codes "memory clocks " ++ leaf.now ++ codes " " ++ one.now ++ codes " " ++ other.now)) }
{
    put_name(out, b"memory clocks ", leaf)?;
    out.extend_from_slice(b" ")?;
    out.extend_from_slice(one.as_bytes())?;
    out.extend_from_slice(b" ")?;
    out.extend_from_slice(other.as_bytes())?;
    Ok(())
}
