//! The line of a fault.

ghost use Rattle.std.specs.Prelude.{◌≡◌, ◌++◌, IfOk, OnErr, OnOk};
ghost use Rattle.fir_ast.specs.Faults.{code_word, fault_line};
ghost use Rattle.fir_ast.specs.working.CodeFaults.{code_of, fault_of};

use crate::evidence::put_evidence;
use crate::walk_text::put_place;
use fir_ast::FirFault;
use fir_base::MemoryOut;
use std::alloc::Global;

/// Appends the line of a fault: its code, its place as line and column from 1, its evidence, parted by single spaces,
/// and a newline. Where memory is wanting, `out` is as before.
pub fn put_fault_line(fault: &FirFault, alloc: Global, out: &mut Vec<u8>) -> Result<(), MemoryOut>
    ensures line { OnOk result (out.new.items ≡ out.old.items ++ fault_line (fault_of fault.now)) }
    ensures unchanged { OnErr result (out.new.items ≡ out.old.items) }
{
    let line = line_of(alloc, fault)?;
    out.extend_from_slice(line.as_slice())?;
    Ok(())
}

fn line_of(alloc: Global, fault: &FirFault) -> Result<Vec<u8>, MemoryOut>
    ensures { IfOk result (λ line. line.items ≡ fault_line (fault_of fault.now)) }
{
    let mut line = Vec::new(alloc);
    line.extend_from_slice(code_of(fault))?;
    line.extend_from_slice(b" ")?;
    put_place(&mut line, fault.place())?;
    line.extend_from_slice(b" ")?;
    put_evidence(&mut line, fault)?;
    line.extend_from_slice(b"\n")?;
    Ok(line)
}

fn code_of(fault: &FirFault) -> &'static [u8]
    ensures { result.now ≡ code_word (code_of fault.now) }
{
    match fault {
        FirFault::Byte(_, _) => b"E01",
        FirFault::Indent(_, _) | FirFault::Tab(_) => b"E02",
        FirFault::BadLiteral(_) => b"E03",
        FirFault::Syntax(_) => b"E04",
        FirFault::Unsupported(_, _) => b"E05",
        FirFault::Depth(_) => b"E06",
        FirFault::Version(_, _) => b"E07",
        FirFault::Unknown(_, _) => b"E08",
        FirFault::Twice(_, _, _) => b"E09",
        FirFault::NoModule(_, _) => b"E10",
        FirFault::Recursive(_, _) => b"E11",
        FirFault::Kinds(_, _) | FirFault::NoField(_, _) => b"E12",
        FirFault::Types(_, _, _) => b"E13",
        FirFault::Flow(_, _) => b"E14",
        FirFault::NotPassive(_, _) => b"E15",
        FirFault::OutOfRange(_, _, _) => b"E16",
        FirFault::MemoryField(_, _, _) => b"E17",
        FirFault::Resets(_, _) => b"E18",
        FirFault::Over(_, _) => b"E19",
        FirFault::PortWidth(_, _) => b"E20",
        FirFault::Legality(_, _, _) | FirFault::LiteralLegality(_, _, _, _) => b"E21",
        FirFault::Condition(_, _) => b"E22",
        FirFault::Cost(_, _) => b"E23",
        FirFault::Undriven(_, _, _) => b"E24",
        FirFault::Clock(_, _, _, _) => b"E25",
        FirFault::MemoryClocks(_, _, _, _) => b"E26",
        FirFault::AsyncInit(_, _) => b"E27",
        FirFault::Loop(_, _) => b"E28",
    }
}
