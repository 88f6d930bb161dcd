//! What meets in a module is joined: the two sides of connects, and nodes with their expressions.

ghost use Rattle.std.specs.Prelude.{◌≡◌, [], IfOk, List, OnOk, option_map};
ghost use Rattle.fir_ast.specs.working.Views.{circuit_of, named_of, sink_of};
ghost use Rattle.fir_meaning.specs.working.NameGroups.{HasNames};
ghost use Rattle.fir_meaning.specs.TypeGroup.{type_faults};
ghost use Rattle.fir_infer_resets.specs.working.FirstEnds.{JoinsMet};
ghost use Rattle.fir_infer_resets.specs.working.FirstPairs.{met_pairs};
ghost use Rattle.fir_infer_resets.specs.working.Holding.{Holds, HoldsMore};
ghost use Rattle.fir_infer_resets.specs.working.JoinedSides.{ConnectJoined, IsSourceRoot, NodeJoined};
ghost use Rattle.fir_infer_resets.specs.working.Meetings.{Meeting, met_joins};
ghost use Rattle.fir_infer_resets.specs.working.Meets.{IsMeet};
ghost use Rattle.fir_meaning.specs.ResetJoins.{Join};
ghost use Rattle.fir_infer_resets.specs.working.Resolved.{StandsIn};
ghost use Rattle.fir_type_table.specs.working.Tables.{types_of};
ghost use Rattle.fir_types.specs.working.Seen.{found_type};

use crate::joined::Joined;
use crate::meet::{Meet, Source};
use crate::pairs::Sides;
use crate::root::Root;
use fir_ast::{Ident, Reference};
use fir_base::MemoryOut;
use fir_names::Named;
use fir_types::{Findings, Found, LeafRange};
use std::alloc::Global;

/// Joins the leaves that meet, where one of the two is a Reset. An instance joins nothing here: its leaves
/// are joined to those of its module where they are met.
pub fn join_meet<'a>(
    alloc: Global,
    named: &'a Named,
    findings: &'a Findings,
    module_number: usize,
    meet: &Meet<'a>,
    joined: &mut Joined<'a>,
) -> Result<(), MemoryOut>
    requires names { HasNames (circuit_of named.now) }
    requires types { type_faults (circuit_of named.now) ≡ [] }
    ensures { (js : List Join) (m : Meeting) (before : Holds (circuit_of named.now) js joined.old) → IsMeet (types_of findings.now.table) meet.now m → StandsIn (circuit_of named.now) findings.now module_number m → OnOk result (HoldsMore before (met_joins m) joined.new) }
{
    match meet {
        Meet::Connected(whole, sink, range, source) => join_connect(
            alloc,
            named,
            findings,
            module_number,
            !*whole,
            sink,
            *range,
            source,
            joined,
        ),
        Meet::Node(ident, _, source) => {
            join_node(alloc, named, findings, module_number, ident, source, joined)
        }
        Meet::Instance(_, _) => Ok(()),
    }
}

/// Joins the sides of a connect or a partial connect, whose sink names these leaves.
fn join_connect<'a>(
    alloc: Global,
    named: &'a Named,
    findings: &'a Findings,
    module_number: usize,
    partly: bool,
    sink: &'a Reference,
    range: Option<&'a LeafRange>,
    source: &Source<'a>,
    joined: &mut Joined<'a>,
) -> Result<(), MemoryOut>
    requires names { HasNames (circuit_of named.now) }
    requires types { type_faults (circuit_of named.now) ≡ [] }
    ensures { OnOk result (ConnectJoined (circuit_of named.now) module_number (types_of findings.now.table) partly (sink_of sink.now) (option_map (λ x. x.now) range.entry) source.now joined.old joined.new) }
{
    let Some(range) = range else {
        return Ok(());
    };
    let left = Root::of_reference(alloc, named, module_number, sink, range)?;
    let Some((right, other)) = source_root(alloc, named, module_number, source)? else {
        return Ok(());
    };
    join_roots(
        alloc,
        named,
        findings,
        module_number,
        partly,
        left,
        range.found,
        right,
        other,
        joined,
    )
}

/// Joins a node and its expression, which have one type.
fn join_node<'a>(
    alloc: Global,
    named: &'a Named,
    findings: &'a Findings,
    module_number: usize,
    ident: &'a Ident,
    source: &Source<'a>,
    joined: &mut Joined<'a>,
) -> Result<(), MemoryOut>
    requires names { HasNames (circuit_of named.now) }
    requires types { type_faults (circuit_of named.now) ≡ [] }
    ensures { OnOk result (NodeJoined (circuit_of named.now) module_number (types_of findings.now.table) (named_of ident.now) source.now joined.old joined.new) }
{
    let left = Root::of_node(alloc, ident)?;
    let Some((right, found)) = source_root(alloc, named, module_number, source)? else {
        return Ok(());
    };
    join_roots(
        alloc,
        named,
        findings,
        module_number,
        false,
        left,
        found,
        right,
        found,
        joined,
    )
}

/// The root of a source and its type; None where it is nothing.
fn source_root<'a>(
    alloc: Global,
    named: &Named,
    module_number: usize,
    source: &Source<'a>,
) -> Result<Option<(Root<'a>, Found)>, MemoryOut>
    ensures { IfOk result (IsSourceRoot (circuit_of named.now) module_number source.now) }
{
    match source {
        Source::Reference(reference, range) => {
            let Some(range) = range else {
                return Ok(None);
            };
            let root = Root::of_reference(alloc, named, module_number, reference, range)?;
            Ok(Some((root, range.found)))
        }
        Source::Value(place, found) => match found {
            Some(found) => Ok(Some((Root::Value(*place), *found))),
            None => Ok(None),
        },
    }
}

/// Joins what stands below two roots of these types.
fn join_roots<'a>(
    alloc: Global,
    named: &'a Named,
    findings: &'a Findings,
    module_number: usize,
    partly: bool,
    left: Root<'a>,
    one: Found,
    right: Root<'a>,
    other: Found,
    joined: &mut Joined<'a>,
) -> Result<(), MemoryOut>
    requires names { HasNames (circuit_of named.now) }
    requires types { type_faults (circuit_of named.now) ≡ [] }
    ensures { OnOk result (JoinsMet (circuit_of named.now) module_number left.entry right.entry (met_pairs partly [] (found_type (types_of findings.now.table) one) (found_type (types_of findings.now.table) other)) joined.old joined.new) }
{
    let sides = Sides {
        named,
        table: &findings.table,
        module_number,
        left,
        right,
        partly,
    };
    let mut steps = Vec::new(alloc);
    sides.join_types(alloc, one, other, &mut steps, joined)
}
