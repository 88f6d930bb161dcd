//! What stands for a side of what meets.

ghost use Rattle.std.specs.Prelude.{◌≡◌, [], ◌∷◌, ◌++◌, IfOk, List, Some, false, map, slice_get};
ghost use Rattle.fir_ast.specs.Circuits.{CircuitTree, ModuleTree};
ghost use Rattle.fir_ast.specs.Types.{DataType, reset};
ghost use Rattle.fir_ast.specs.working.Views.{circuit_of, named_of, sink_of};
ghost use Rattle.fir_meaning.specs.Components.{find};
ghost use Rattle.fir_meaning.specs.working.NameGroups.{HasNames};
ghost use Rattle.fir_meaning.specs.TypeGroup.{type_faults};
ghost use Rattle.fir_meaning.specs.Visibility.{declarations};
ghost use Rattle.fir_names.specs.working.Parts.{part_view};
ghost use Rattle.fir_types.specs.working.Seen.{sink_path, steps_of};
ghost use Rattle.fir_infer_resets.specs.working.FirstEnds.{AreLeaves, HasEnd, IsFirstEnd, IsNodeRoot, IsReferenceRoot, access_behind, first_ends};
ghost use Rattle.fir_infer_resets.specs.working.FirstPairs.{kind_of_type};
ghost use Rattle.fir_infer_resets.specs.working.Holding.{Holds, IsEnd, path_of, step_of};
ghost use Rattle.fir_meaning.specs.ResetItems.{declared_at, is_reset, value_end};
ghost use Rattle.fir_meaning.specs.ResetJoins.{Join};

use crate::graph::Kind;
use crate::item::{End, Item, Step};
use crate::joined::Joined;
use fir_ast::{Ident, Part, Place, Reference};
use fir_base::MemoryOut;
use fir_names::Named;
use fir_types::{LeafRange, Pick};
use std::alloc::Global;

/// What the dynamic indices of a reference pick.
#[derive(Clone, Copy)]
pub enum Access {
    /// No index is dynamic.
    Fixed,
    /// Elements; with the place of the reference.
    Picks(Place),
    /// One picks in a vector of length 0.
    Empty(Place),
}

/// What leaves of a side stand below.
#[derive(Drop)]
pub enum Root<'a> {
    /// The path that a reference begins with, with the first element for each dynamic index, and where its name is
    /// declared.
    Leaf(Vec<Step<'a>>, Place, Access),
    /// An expression that is no reference, by its place.
    Value(Place),
}

impl<'a> Root<'a> {
    /// That of a reference in the module of that number, which names these leaves.
    pub fn of_reference(
        alloc: Global,
        named: &Named,
        module_number: usize,
        reference: &'a Reference,
        range: &LeafRange,
    ) -> Result<Root<'a>, MemoryOut>
        ensures { IfOk result (IsReferenceRoot (circuit_of named.now) module_number (sink_of reference.now) (map (λ p. p.length) range.now.picks.items)) }
    {
        let path = reference_path(alloc, reference)?;
        let place = place_declared(named, module_number, range.declaration, reference);
        let access = picked(reference.place, range.picks.as_slice());
        Ok(Root::Leaf(path, place, access))
    }

    /// That of a node.
    pub fn of_node(alloc: Global, ident: &'a Ident) -> Result<Root<'a>, MemoryOut>
        ensures { IfOk result (IsNodeRoot (named_of ident.now)) }
    {
        let mut path = Vec::new(alloc);
        path.push(Step::Named(&ident.name))?;
        Ok(Root::Leaf(path, ident.place, Access::Fixed))
    }

    /// The number of what stands behind these steps, which is of that kind; None where nothing does.
    pub fn end(
        &self,
        alloc: Global,
        named: &'a Named,
        module_number: usize,
        steps: &[Step<'a>],
        kind: Kind,
        joined: &mut Joined<'a>,
    ) -> Result<Option<usize>, MemoryOut>
        requires names { HasNames (circuit_of named.now) }
        requires types { type_faults (circuit_of named.now) ≡ [] }
        ensures { (js : List Join) (before : Holds (circuit_of named.now) js joined.old) (t : DataType) → kind_of_type t ≡ Some kind → AreLeaves (circuit_of named.now) (first_ends module_number self.now (path_of steps.now) t) → IfOk result (HasEnd before (first_ends module_number self.now (path_of steps.now) t) joined.new) }
    {
        match kind {
            Kind::Reset => self.reset(alloc, named, module_number, steps, joined),
            _ => self.contact(alloc, module_number, steps, kind, joined),
        }
    }

    /// The same of a Reset.
    fn reset(
        &self,
        alloc: Global,
        named: &'a Named,
        module_number: usize,
        steps: &[Step<'a>],
        joined: &mut Joined<'a>,
    ) -> Result<Option<usize>, MemoryOut>
        requires names { HasNames (circuit_of named.now) }
        requires types { type_faults (circuit_of named.now) ≡ [] }
        ensures { (js : List Join) (before : Holds (circuit_of named.now) js joined.old) → AreLeaves (circuit_of named.now) (first_ends module_number self.now (path_of steps.now) reset) → IfOk result (HasEnd before (first_ends module_number self.now (path_of steps.now) reset) joined.new) }
    {
        match self {
            Root::Leaf(path, _, access) => match access {
                Access::Empty(_) => Ok(None),
                _ => {
                    let path = path_behind(alloc, path.as_slice(), steps)?;
                    let number = joined.reset(alloc, named, module_number, path.as_slice())?;
                    Ok(Some(number))
                }
            },
            Root::Value(_) => Ok(None),
        }
    }

    /// The same of what is no Reset.
    fn contact(
        &self,
        alloc: Global,
        module_number: usize,
        steps: &[Step<'a>],
        kind: Kind,
        joined: &mut Joined<'a>,
    ) -> Result<Option<usize>, MemoryOut>
        ensures { (c : CircuitTree) (js : List Join) (before : Holds c js joined.old) (t : DataType) → kind_of_type t ≡ Some kind → is_reset t ≡ false → IfOk result (HasEnd before (first_ends module_number self.now (path_of steps.now) t) joined.new) }
    {
        let end = self.end_behind(alloc, module_number, steps, kind)?;
        let number = joined.contact(alloc, end)?;
        Ok(Some(number))
    }

    /// What stands behind these steps, where it is no Reset.
    fn end_behind(
        &self,
        alloc: Global,
        module_number: usize,
        steps: &[Step<'a>],
        kind: Kind,
    ) -> Result<End<'a>, MemoryOut>
        ensures { (t : DataType) → kind_of_type t ≡ Some kind → is_reset t ≡ false → IfOk result (λ own. IsFirstEnd own (first_ends module_number self.now (path_of steps.now) t)) }
    {
        match self {
            Root::Leaf(path, place, access) => match access {
                Access::Fixed => {
                    let path = path_behind(alloc, path.as_slice(), steps)?;
                    Ok(End {
                        item: Item::Leaf(module_number, path),
                        kind,
                        place: *place,
                    })
                }
                Access::Picks(place) => Ok(value(*place, kind)),
                Access::Empty(place) => Ok(value(*place, kind)),
            },
            Root::Value(place) => Ok(value(*place, kind)),
        }
    }
}

fn value<'a>(place: Place, kind: Kind) -> End<'a>
    ensures { (t : DataType) → kind_of_type t ≡ Some kind → IsEnd result (value_end place t) }
{
    End {
        item: Item::Value(place),
        kind,
        place,
    }
}

fn path_behind<'a>(
    alloc: Global,
    path: &[Step<'a>],
    steps: &[Step<'a>],
) -> Result<Vec<Step<'a>>, MemoryOut>
    ensures { IfOk result (λ v. path_of v.items ≡ path_of path.now ++ path_of steps.now) }
{
    let mut whole = Vec::from_slice(alloc, path)?;
    whole.extend_from_slice(steps)?;
    Ok(whole)
}

/// The name and the parts behind it.
fn reference_path<'a>(alloc: Global, reference: &'a Reference) -> Result<Vec<Step<'a>>, MemoryOut>
    ensures { IfOk result (λ path. path_of path.items ≡ sink_path (sink_of reference.now)) }
{
    let mut path = Vec::new(alloc);
    path.push(Step::Named(&reference.name))?;
    for part in &reference.parts {
        path.push(first_step(part))?;
    }
    Ok(path)
}

/// The step of a part: the first element for a dynamic index.
fn first_step<'a>(part: &'a Part) -> Step<'a>
    ensures { step_of result ∷ [] ≡ steps_of (part_view part.now) }
{
    match part {
        Part::Field(_, _, name) => Step::Named(name),
        Part::Index(_, _, index) => Step::Element(*index),
        Part::Access(_, _) => Step::Element(0),
    }
}

/// Where the name of a reference is declared, which so many declarations stand before.
fn place_declared(
    named: &Named,
    module_number: usize,
    position: usize,
    reference: &Reference,
) -> Place
    ensures { (m : ModuleTree) → slice_get (circuit_of named.now).modules module_number ≡ Some m → result ≡ declared_at (sink_of reference.now).place (find (declarations m) (sink_of reference.now).name) }
{
    let Some(names) = named.names(module_number) else {
        return reference.place;
    };
    match names.find_near(position, &reference.name) {
        Some(declaration) => declaration.place,
        None => reference.place,
    }
}

/// What a reference picks.
fn picked(place: Place, picks: &[Pick]) -> Access
    ensures { result ≡ access_behind place Access.Fixed (map (λ p. p.length) picks.now) }
{
    let mut access = Access::Fixed;
    for pick in picks {
        if pick.length == 0 {
            return Access::Empty(place);
        }
        access = Access::Picks(place);
    }
    access
}
