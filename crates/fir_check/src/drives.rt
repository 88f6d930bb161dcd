//! E14: the first driven leaf of a connect that is a source, and its path (FIRRTL spec, "Flow").

ghost use Rattle.std.specs.Prelude.{◌≡◌, [], ◌∷◌, ◌++◌, List, Option, true, false, IfOk, OnOk, Some, flat_map, map, option_map};
ghost use Rattle.fir_ast.specs.working.Views.{expr_of, sink_of};
ghost use Rattle.fir_meaning.specs.ConnectPairs.{partial_pairs};
ghost use Rattle.fir_meaning.specs.Equivalence.{is_partly_connectable};
ghost use Rattle.fir_meaning.specs.KindFaults.{wrong_flow};
ghost use Rattle.fir_meaning.specs.LeafPaths.{LeafPath, element, named, path_text, step_text};
ghost use Rattle.fir_meaning.specs.MemoryTypes.{first_one};
ghost use Rattle.fir_meaning.specs.TypeLeaves.{type_leaves};
ghost use Rattle.fir_names.specs.working.Parts.{part_view};
ghost use Rattle.fir_type_table.specs.working.Tables.{types_of};
ghost use Rattle.fir_check.specs.declared.drives.Sides.{Sides};
ghost use Rattle.fir_check.specs.working.Driven.{first_driven, flow_faults, is_source_at, is_source_on_right, leaf_text, spot_of_pair, spot_text};
ghost use Rattle.fir_types.specs.working.Spots.{Spot, spot_of};
ghost use Rattle.fir_types.specs.working.Judged.{IsFault};
ghost use Rattle.fir_types.specs.working.Seen.{found_type, sink_path, steps_of};
ghost use Rattle.fir_types.specs.working.Walked.{Judges};

use fir_ast::{Expr, FirFault, Part, Place, Reference};
use fir_base::{MemoryOut, Name, Refused, put_decimal};
use fir_type_table::TypeTable;
use fir_types::{Flow, Found, Reach};
use std::alloc::Global;

/// Which driven leaves of a connect are sources.
#[derive(Clone, Copy)]
pub struct Sides {
    /// Those that are not flipped, on the left.
    pub straight: bool,
    /// Those that are flipped, on the right.
    pub flipped: bool,
}

/// A leaf that is driven and is a source.
#[derive(Drop)]
pub struct SourceLeaf {
    /// Whether it is flipped, and so on the right side.
    pub flip: bool,
    /// The text of its path in its side.
    pub steps: Vec<u8>,
}

impl Sides {
    /// Of what the left side reaches, and the right side if it is a reference. A leaf to which no path leads
    /// does not count.
    pub fn of(left: Reach, right: Option<Reach>) -> Sides
        ensures straight { result.straight ≡ is_source_at false left }
        ensures flipped { result.flipped ≡ is_source_on_right right }
    {
        Sides {
            straight: is_source(left, false),
            flipped: match right {
                Some(right) => is_source(right, true),
                None => false,
            },
        }
    }

    /// The first such leaf of a connect whose left side has that type.
    pub fn first_leaf(
        self,
        alloc: Global,
        table: &TypeTable,
        left: Found,
    ) -> Result<Option<SourceLeaf>, MemoryOut>
        ensures { IfOk result (λ leaf. option_map leaf_text leaf ≡ option_map spot_text (first_driven self (map spot_of (type_leaves (found_type (types_of table.now) left))))) }
    {
        if !self.straight && !self.flipped {
            return Ok(None);
        }
        let Found::Type(id, _) = left else {
            return ground_leaf(alloc, self.straight);
        };
        let steps = table.first_leaf(alloc, id, self.straight, self.flipped)?;
        Ok(self.leaf_at(table.first_flip(id), steps))
    }

    /// The first such leaf of a partial connect of sides with these types.
    pub fn first_partial_leaf(
        self,
        alloc: Global,
        table: &TypeTable,
        left: Found,
        right: Found,
    ) -> Result<Option<SourceLeaf>, MemoryOut>
        requires { is_partly_connectable (found_type (types_of table.now) left) (found_type (types_of table.now) right) ≡ true }
        ensures { IfOk result (λ leaf. option_map leaf_text leaf ≡ option_map spot_text (first_driven self (map spot_of_pair (partial_pairs (found_type (types_of table.now) left) (found_type (types_of table.now) right))))) }
    {
        if !self.straight && !self.flipped {
            return Ok(None);
        }
        let Found::Type(a, _) = left else {
            return ground_leaf(alloc, self.straight);
        };
        let Found::Type(b, _) = right else {
            return ground_leaf(alloc, self.straight);
        };
        let steps = table.first_partial_leaf(alloc, a, b, self.straight, self.flipped)?;
        Ok(self.leaf_at(table.first_pair_flip(a, b), steps))
    }

    /// The first such leaf, at these steps, where the first leaf of all is flipped or not.
    fn leaf_at(self, first: Option<bool>, steps: Option<Vec<u8>>) -> Option<SourceLeaf>
        ensures { (spots : List Spot) → first ≡ option_map (λ s. s.0) (first_one spots) → option_map (λ v. v.items) steps ≡ option_map (λ s. flat_map step_text s.1) (first_driven self spots) → option_map leaf_text result ≡ option_map spot_text (first_driven self spots) }
    {
        let steps = steps?;
        Some(SourceLeaf {
            flip: self.is_flipped(first),
            steps,
        })
    }

    /// Whether the first such leaf is flipped, where the first leaf of all is or not.
    fn is_flipped(self, first: Option<bool>) -> bool
        ensures { (spots : List Spot) (spot : Spot) → first ≡ option_map (λ s. s.0) (first_one spots) → first_driven self spots ≡ Some spot → result ≡ spot.0 }
    {
        if self.straight && self.flipped {
            first == Some(true)
        } else {
            self.flipped
        }
    }
}

/// Whether a leaf of what is reached, flipped or not, is a source to which a path leads.
fn is_source(reach: Reach, flip: bool) -> bool
    ensures { result ≡ is_source_at flip reach }
{
    reach.leads && reach.flow.under(flip) == Flow::Source
}

/// The one leaf of a ground type.
fn ground_leaf(alloc: Global, straight: bool) -> Result<Option<SourceLeaf>, MemoryOut>
    ensures { (sides : Sides) → straight ≡ sides.straight → IfOk result (λ leaf. option_map leaf_text leaf ≡ option_map spot_text (first_driven sides ((false, []) ∷ []))) }
{
    if !straight {
        return Ok(None);
    }
    Ok(Some(SourceLeaf {
        flip: false,
        steps: Vec::new(alloc),
    }))
}

/// E14 at the place, if there is such a leaf.
pub fn drives_a_source(
    alloc: Global,
    place: Place,
    sink: &Reference,
    source: &Expr,
    leaf: Option<SourceLeaf>,
) -> Result<(), Refused<FirFault>>
    ensures { (spot : Option Spot) → option_map leaf_text leaf ≡ option_map spot_text spot → Judges (flow_faults place (sink_of sink.now) (expr_of source.now) spot) result }
{
    let Some(leaf) = leaf else {
        return Ok(());
    };
    if !leaf.flip {
        return Err(wrong_flow(alloc, place, sink, &leaf.steps));
    }
    match source {
        Expr::Ref(reference) => Err(wrong_flow(alloc, place, reference, &leaf.steps)),
        _ => Ok(()),
    }
}

/// E14 at a leaf of a reference.
fn wrong_flow(alloc: Global, place: Place, reference: &Reference, steps: &[u8]) -> Refused<FirFault>
    ensures { (path : LeafPath) → flat_map step_text path ≡ steps.now → IsFault (wrong_flow place (sink_path (sink_of reference.now) ++ path)) result }
{
    match leaf_name(alloc, reference, steps) {
        Ok(name) => Refused::Fault(FirFault::Flow(place, name)),
        Err(MemoryOut) => Refused::Memory,
    }
}

/// The text of a leaf: a reference and steps behind it.
fn leaf_name(alloc: Global, reference: &Reference, steps: &[u8]) -> Result<Name, MemoryOut>
    ensures { IfOk result (λ name. name ≡ path_text (sink_path (sink_of reference.now)) ++ steps.now) }
{
    let mut text = Vec::new(alloc);
    put_reference(&mut text, reference)?;
    text.extend_from_slice(steps)?;
    Ok(Name::from_vec(text))
}

/// Appends a name and the steps behind it.
fn put_reference(out: &mut Vec<u8>, reference: &Reference) -> Result<(), MemoryOut>
    ensures { OnOk result (out.new.items ≡ out.old.items ++ path_text (sink_path (sink_of reference.now))) }
{
    out.extend_from_slice(reference.name.as_bytes())?;
    for part in &reference.parts {
        put_step(out, part)?;
    }
    Ok(())
}

/// Appends a step: of a dynamic index the first element.
fn put_step(out: &mut Vec<u8>, part: &Part) -> Result<(), MemoryOut>
    ensures { OnOk result (out.new.items ≡ out.old.items ++ flat_map step_text (steps_of (part_view part.now))) }
{
    match part {
        Part::Field(_, _, name) => put_field(out, name),
        Part::Index(_, _, index) => put_element(out, *index),
        Part::Access(_, _) => put_element(out, 0),
    }
}

fn put_field(out: &mut Vec<u8>, name: &Name) -> Result<(), MemoryOut>
    ensures { OnOk result (out.new.items ≡ out.old.items ++ step_text (named name.now)) }
{
    out.extend_from_slice(b".")?;
    out.extend_from_slice(name.as_bytes())?;
    Ok(())
}

fn put_element(out: &mut Vec<u8>, index: u128) -> Result<(), MemoryOut>
    ensures { OnOk result (out.new.items ≡ out.old.items ++ step_text (element index)) }
{
    out.extend_from_slice(b"[")?;
    put_decimal(out, index)?;
    out.extend_from_slice(b"]")?;
    Ok(())
}
