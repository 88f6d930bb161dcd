//! The passes on the way of a circuit, in the order in which it takes them: from bytes to tokens and to the tree; then,
//! in one chain, to the tree with its names, with its types, with its resets and widths, and over its ground leaves,
//! which are not too many; to the nets of its modules, in which each leaf is driven; to one flat net and its order
//! (`ordered_net`); then to that net folded and without dead logic (`compile`); and from there to the Verilog tree and its
//! text, by a net without pipes, or to the shape of its traces.

ghost use Rattle.std.specs.Prelude.{◌≤◌, IfOk, length};
ghost use Rattle.fir_net.specs.working.IsOrder.{IsOrder};
ghost use Rattle.fir_compile.specs.working.Made.{Makes};
ghost use Rattle.fir_compile.specs.working.Readings.{IsCompiled, IsEmitted, IsTree};
ghost use Rattle.fir_compile.specs.working.Counted.{IsChecked, IsCounted};

use crate::compiled::{Compiled, simplified};
use crate::counted::counts_line;
use crate::flat::Flatten;
use crate::ordered::{FindOrder, OrderedNet};
use crate::told::Told;
use fir_ast::{Circuit, FirFault};
use fir_base::Refused;
use fir_check::CheckTypes;
use fir_expand::Expand;
use fir_infer::Infer;
use fir_lex::laws::{faults_form_by_form, lexed_form_by_form};
use fir_lex::lex;
use fir_mem::lower_pipes;
use fir_net::counts;
use fir_net::laws::{nodes_have_their_types, ordered_has_one};
use fir_parse::parse;
use fir_pass::{Chain, Pass};
use fir_resolve::{Parsed, Resolve};
use fir_spelled::spelled_names_are_words;
use fir_tick::shape;
use fir_whens::LowerWhens;
use std::alloc::Global;
use trace_text::Shape;
use ver_build::{build, built_has_any_places, names_are_for_rows};
use ver_emit::{layout_has_no_comment, layout_is_spelled, write_verilog};

/// The passes over the tree, for the faults E08 to E24.
type TreePasses = Chain<Resolve, Chain<CheckTypes, Chain<Infer, Chain<Expand, LowerWhens>>>>;

/// Those behind its nets, for the faults E25 to E28.
type NetPasses = Chain<Flatten, FindOrder>;

/// Passes one behind the other.
macro_rules! chain {
    ($last:expr) => { $last };
    ($first:expr, $($rest:expr),+) => {
        Chain { first: $first, second: chain!($($rest),+) }
    };
}

fn passes() -> Chain<TreePasses, NetPasses> {
    Chain {
        first: chain!(Resolve, CheckTypes, Infer, Expand, LowerWhens),
        second: chain!(Flatten, FindOrder),
    }
}

fn read_tree(alloc: Global, bytes: &[u8]) -> Result<Circuit, Refused<FirFault>>
    requires { length bytes.now ≤ 16777216 }
    ensures { IsTree bytes.now result }
{
    lexed_form_by_form();
    faults_form_by_form();
    let tokens = lex(alloc, bytes)?;
    match parse(alloc, tokens) {
        Ok(tree) => Ok(tree),
        Err(Refused::Fault((fault, _))) => Err(Refused::Fault(fault)),
        Err(Refused::Memory) => Err(Refused::Memory),
    }
}

/// The flat net of the circuit that the bytes spell, with its order, or the fault for which the text is refused.
fn ordered_net(alloc: Global, bytes: &[u8]) -> Result<OrderedNet, Refused<FirFault>>
    requires { length bytes.now ≤ 16777216 }
    ensures counted { IsCounted bytes.now result }
    ensures in_order { IfOk result (λ ordered. IsOrder ordered.net ordered.order) }
{
    let circuit = read_tree(alloc, bytes)?;
    match passes().run(alloc, Parsed { circuit }) {
        Ok(ordered) => Ok(ordered),
        Err(Refused::Fault(fault)) => Err(Refused::Fault(fault.into_fault())),
        Err(Refused::Memory) => Err(Refused::Memory),
    }
}

/// The flat net of the circuit that the bytes spell, folded and without dead logic, with its order. It allows at every
/// tick what the circuit's source allows, with its names, and has exactly one choice of values; or else the fault for
/// which the text is refused: of the text, else the first of its circuit.
pub fn compile(alloc: Global, bytes: &[u8]) -> Result<Compiled, Refused<FirFault>>
    requires { length bytes.now ≤ 16777216 }
    ensures compiled { IsCompiled bytes.now result }
    ensures in_order { IfOk result (λ compiled. IsOrder compiled.net compiled.order) }
{
    ordered_has_one();
    let ordered = ordered_net(alloc, bytes)?;
    Ok(simplified(alloc, ordered)?)
}

/// The line that tells how many leaves, registers and memories the circuit has that the bytes spell, or the fault for
/// which it is refused.
pub fn counts_of(alloc: Global, bytes: &[u8]) -> Result<Vec<u8>, Refused<FirFault>>
    requires { length bytes.now ≤ 16777216 }
    ensures { IsChecked bytes.now (λ line. line.items) result }
{
    fir_parse::laws::spells_one_tree();
    let ordered = ordered_net(alloc, bytes)?;
    Ok(counts_line(alloc, &counts(&ordered.net))?)
}

/// The text of the Verilog of the circuit that the bytes spell, or the fault for which it is refused.
pub fn verilog_of(alloc: Global, bytes: &[u8]) -> Result<Vec<u8>, Refused<FirFault>>
    requires { length bytes.now ≤ 16777216 }
    ensures { IsEmitted bytes.now (λ text. text.items) result }
{
    fir_parse::laws::spells_one_tree();
    ver_ast::spells_one_tree();
    layout_is_spelled();
    layout_has_no_comment();
    nodes_have_their_types();
    ordered_has_one();
    built_has_any_places();
    spelled_names_are_words();
    let compiled = compile(alloc, bytes)?;
    let lowered = lower_pipes(alloc, compiled.net, compiled.order)?;
    let verilog = build(alloc, &lowered.0, &lowered.1)?;
    Ok(write_verilog(alloc, &verilog)?)
}

/// The net of the circuit that the bytes spell, with its order, and the shape of its traces; or the fault for
/// which it is refused.
pub fn net_of(alloc: Global, bytes: &[u8]) -> Result<(Compiled, Shape), Refused<FirFault>>
    requires { length bytes.now ≤ 16777216 }
    ensures made { Makes bytes.now result }
    ensures in_order { IfOk result (λ made. IsOrder made.0.net made.0.order) }
{
    fir_parse::laws::spells_one_tree();
    names_are_for_rows();
    spelled_names_are_words();
    let compiled = compile(alloc, bytes)?;
    let shape = shape(alloc, &compiled.net)?;
    Ok((compiled, shape))
}
