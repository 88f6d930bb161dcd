//! The writer of a module.

ghost use Rattle.std.specs.Prelude.{◌≡◌, ◌++◌, IfOk, OnOk, codes, flat_map};
ghost use Rattle.ver_ast.specs.Grammar.{direction_keyword};
ghost use Rattle.ver_emit.specs.Layout.{layout, mark_text, next_port_text, port_text, ports_text};

use crate::item::put_items;
use crate::range::put_range;
use fir_base::{Direction, MemoryOut};
use std::alloc::Global;
use ver_ast::{Port, Verilog};

/// The text of a module, without a comment (IEEE 1364-2005, 12.1). Only memory can be wanting.
#[tactic(auto, unfolding(crate::specs::Layout::layout))]
pub fn write_verilog(alloc: Global, v: &Verilog) -> Result<Vec<u8>, MemoryOut>
    ensures { IfOk result (λ w. w.items ≡ layout v.now) }
{
    let mut out = Vec::new(alloc);
    out.extend_from_slice(b"module ")?;
    out.extend_from_slice(v.name.as_bytes())?;
    out.extend_from_slice(b"(")?;
    put_ports(&mut out, v.ports.as_slice())?;
    out.extend_from_slice(b");\n")?;
    put_items(&mut out, v.items.as_slice())?;
    out.extend_from_slice(b"endmodule\n")?;
    Ok(out)
}

fn put_ports(out: &mut Vec<u8>, ports: &[Port]) -> Result<(), MemoryOut>
    ensures { OnOk result (out.new.items ≡ out.old.items ++ ports_text ports.now) }
{
    match ports {
        [] => Ok(()),
        [first, rest @ ..] => {
            put_port(out, first)?;
            put_next_ports(out, rest)?;
            out.extend_from_slice(b"\n")?;
            Ok(())
        }
    }
}

fn put_next_ports(out: &mut Vec<u8>, ports: &[Port]) -> Result<(), MemoryOut>
    ensures { OnOk result (out.new.items ≡ out.old.items ++ flat_map next_port_text ports.now) }
{
    for port in ports {
        out.extend_from_slice(b",")?;
        put_port(out, port)?;
    }
    Ok(())
}

fn put_port(out: &mut Vec<u8>, port: &Port) -> Result<(), MemoryOut>
    ensures { OnOk result (out.new.items ≡ out.old.items ++ port_text port.now) }
{
    out.extend_from_slice(b"\n  ")?;
    put_mark(out, port.is_clock)?;
    out.extend_from_slice(word_of(port.direction))?;
    out.extend_from_slice(b" ")?;
    put_range(out, port.width)?;
    out.extend_from_slice(port.name.as_bytes())?;
    Ok(())
}

/// The attribute by which a clock is marked (IEEE 1364-2005, 3.8).
fn put_mark(out: &mut Vec<u8>, is_clock: bool) -> Result<(), MemoryOut>
    ensures { OnOk result (out.new.items ≡ out.old.items ++ mark_text is_clock) }
{
    if is_clock {
        out.extend_from_slice(b"(* clock *) ")?;
    }
    Ok(())
}

fn word_of(direction: Direction) -> &'static [u8]
    ensures { result.now ≡ direction_keyword direction }
{
    match direction {
        Direction::Input => b"input",
        Direction::Output => b"output",
    }
}
