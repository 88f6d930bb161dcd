//! The graph of a circuit's resets, as it is built.

ghost use Rattle.std.specs.Prelude.{◌≡◌, ◌<◌, ◌+◌, ◌⊎◌, Some, IfOk, OnOk, List, [], length, slice_get};
ghost use Rattle.fir_ast.specs.declared.place.Place.{Place as MeantPlace};
ghost use Rattle.fir_ast.specs.Circuits.{CircuitTree};
ghost use Rattle.fir_ast.specs.working.Views.{circuit_of};
ghost use Rattle.fir_meaning.specs.working.NameGroups.{HasNames};
ghost use Rattle.fir_meaning.specs.TypeGroup.{type_faults};
ghost use Rattle.fir_infer_resets.specs.working.Adding.{AddsEnd, AddsReset};
ghost use Rattle.fir_reset.specs.working.DeclaredLeaves.{IsNoInstance};
ghost use Rattle.fir_reset.specs.working.ElementPaths.{firsts_behind};
ghost use Rattle.fir_infer_resets.specs.working.Holding.{HasNumber, Holds, IsEnd, IsJoinedIn, path_of, reset_end};
ghost use Rattle.fir_reset.specs.working.LeafClasses.{class_of};
ghost use Rattle.fir_infer_resets.specs.working.PathKeys.{path_key};
ghost use Rattle.fir_meaning.specs.ResetItems.{End as Meant, leaf_item};
ghost use Rattle.fir_meaning.specs.ResetJoins.{Join};
ghost use Rattle.fir_meaning.specs.ResetWalks.{IsLeafOf, IsReset, Joined as AreJoined};

use crate::edges::put_both;
use crate::graph::Kind;
use crate::item::{End, Item, Step};
use crate::key::{key_of, with_firsts_behind};
use crate::leaf_place::{behind_first, instance_of, place_of};
use fir_ast::Place;
use fir_base::{MemoryOut, Name};
use fir_names::Named;
use std::alloc::Global;
use std::collections::BTreeMap;

/// The ends that are met, under numbers from 0 on, and what is joined.
#[derive(Drop)]
pub struct Joined<'a> {
    pub ends: Vec<End<'a>>,
    pub kinds: Vec<Kind>,
    /// For each number those that it is joined to.
    pub graph: Vec<Vec<usize>>,
    /// The number of each Reset, by the key of its path.
    pub numbers: BTreeMap<Name, usize>,
}

impl<'a> Joined<'a> {
    /// Nothing is met.
    pub fn new(alloc: Global) -> Joined<'a>
        ensures { (c : CircuitTree) → Holds c [] result }
    {
        Joined {
            ends: Vec::new(alloc),
            kinds: Vec::new(alloc),
            graph: Vec::new(alloc),
            numbers: BTreeMap::new(alloc),
        }
    }

    /// The number of a leaf of a module that is a Reset. Where it is new it is joined to one of its class: one
    /// of an instance to that of its module's port, another to the same leaf of a vector's first element.
    pub fn reset(
        &mut self,
        alloc: Global,
        named: &'a Named,
        module_number: usize,
        path: &[Step<'a>],
    ) -> Result<usize, MemoryOut>
        requires names { HasNames (circuit_of named.now) }
        requires types { type_faults (circuit_of named.now) ≡ [] }
        ensures { (js : List Join) (p : MeantPlace) (before : Holds (circuit_of named.now) js self.old) → IsLeafOf (circuit_of named.now) (reset_end module_number (path_of path.now) p) → IfOk result (HasNumber before (reset_end module_number (path_of path.now) p) self.new) }
    {
        let place = place_of(named, module_number, path);
        let Some(child) = instance_of(named, module_number, path) else {
            return self.own_reset(alloc, module_number, path, place);
        };
        let port_path = behind_first(path);
        let port_place = place_of(named, child, port_path);
        let port = self.own_reset(alloc, child, port_path, port_place)?;
        self.reset_beside(alloc, module_number, path, place, port)
    }

    /// The number of an end that is no Reset.
    pub fn contact(&mut self, alloc: Global, end: End<'a>) -> Result<usize, MemoryOut>
        ensures { (c : CircuitTree) (js : List Join) (before : Holds c js self.old) (e : Meant) → IsEnd end.entry e → (IsReset e → ⊥) → IfOk result (HasNumber before e self.new) }
    {
        self.push(alloc, end)
    }

    /// Joins two, one of which is a Reset.
    pub fn join(&mut self, one: usize, other: usize) -> Result<(), MemoryOut>
        ensures { (c : CircuitTree) (js : List Join) (before : Holds c js self.old) (e f : Meant) → slice_get before.ends one ≡ Some e → slice_get before.ends other ≡ Some f → AreJoined c e f → IsReset e ⊎ IsReset f → OnOk result (IsJoinedIn before one other self.new) }
    {
        put_both(&mut self.graph, one, other)?;
        Ok(())
    }

    /// The number of a Reset that is no instance's. The one with the first element for each is always met, and
    /// from there one element is set after the other.
    fn own_reset(
        &mut self,
        alloc: Global,
        module_number: usize,
        path: &[Step<'a>],
        place: Place,
    ) -> Result<usize, MemoryOut>
        ensures { (c : CircuitTree) (js : List Join) (before : Holds c js self.old) → HasNames c → type_faults c ≡ [] → IsLeafOf c (reset_end module_number (path_of path.now) place) → IsNoInstance c module_number (path_of path.now) → IfOk result (HasNumber before (reset_end module_number (path_of path.now) place) self.new) }
    {
        let mut number = self.first_reset(alloc, module_number, path, place)?;
        for position in 0..path.len() {
            number = self.next_reset(alloc, module_number, path, position, place, number)?;
        }
        Ok(number)
    }

    /// The number of the Reset that has the first element for each in the path of one that is no instance's.
    /// Where it is new it is joined to nothing.
    fn first_reset(
        &mut self,
        alloc: Global,
        module_number: usize,
        path: &[Step<'a>],
        place: Place,
    ) -> Result<usize, MemoryOut>
        ensures { (c : CircuitTree) (js : List Join) (before : Holds c js self.old) → HasNames c → type_faults c ≡ [] → IsLeafOf c (reset_end module_number (path_of path.now) place) → IsNoInstance c module_number (path_of path.now) → IfOk result (HasNumber before (reset_end module_number (firsts_behind 0 (path_of path.now)) place) self.new) }
    {
        let first = with_firsts_behind(alloc, 0, path)?;
        let key = key_of(alloc, module_number, first.as_slice())?;
        if let Some(number) = self.numbers.get(&key) {
            return Ok(*number);
        }
        self.push_reset(alloc, module_number, first.as_slice(), place)
    }

    /// The number of the Reset that has the first element for each behind a position of a path, where that
    /// which has it at the position too has this number.
    fn next_reset(
        &mut self,
        alloc: Global,
        module_number: usize,
        path: &[Step<'a>],
        position: usize,
        place: Place,
        number: usize,
    ) -> Result<usize, MemoryOut>
        requires { position < length path.now }
        ensures { (c : CircuitTree) (js : List Join) (before : Holds c js self.old) → HasNames c → type_faults c ≡ [] → IsLeafOf c (reset_end module_number (path_of path.now) place) → slice_get before.ends number ≡ Some (reset_end module_number (firsts_behind position (path_of path.now)) place) → IfOk result (HasNumber before (reset_end module_number (firsts_behind (position + 1) (path_of path.now)) place) self.new) }
    {
        let Step::Element(index) = path[position] else {
            return Ok(number);
        };
        if index == 0 {
            return Ok(number);
        }
        let steps = with_firsts_behind(alloc, position + 1, path)?;
        self.reset_beside(alloc, module_number, steps.as_slice(), place, number)
    }

    /// The number of a Reset; where it is new it is joined to another of its class.
    fn reset_beside(
        &mut self,
        alloc: Global,
        module_number: usize,
        path: &[Step<'a>],
        place: Place,
        other: usize,
    ) -> Result<usize, MemoryOut>
        ensures { (c : CircuitTree) (js : List Join) (before : Holds c js self.old) (f : Meant) → HasNames c → IsLeafOf c (reset_end module_number (path_of path.now) place) → slice_get before.ends other ≡ Some f → IsReset f → class_of c (leaf_item module_number (path_of path.now)) ≡ class_of c f.item → AreJoined c (reset_end module_number (path_of path.now) place) f → IfOk result (HasNumber before (reset_end module_number (path_of path.now) place) self.new) }
    {
        let key = key_of(alloc, module_number, path)?;
        if let Some(number) = self.numbers.get(&key) {
            return Ok(*number);
        }
        let number = self.push_reset(alloc, module_number, path, place)?;
        put_both(&mut self.graph, number, other)?;
        Ok(number)
    }

    /// A Reset that is new.
    fn push_reset(
        &mut self,
        alloc: Global,
        module_number: usize,
        path: &[Step<'a>],
        place: Place,
    ) -> Result<usize, MemoryOut>
        ensures { IfOk result (λ n. (n ≡ length self.old.ends.items) × AddsReset self.old self.new module_number (path_of path.now) place) }
    {
        let key = key_of(alloc, module_number, path)?;
        let item = Item::Leaf(module_number, Vec::from_slice(alloc, path)?);
        let kind = Kind::Reset;
        let number = self.push(alloc, End { item, kind, place })?;
        self.numbers.insert(key, number)?;
        Ok(number)
    }

    /// An end that is new, and joined to nothing.
    fn push(&mut self, alloc: Global, end: End<'a>) -> Result<usize, MemoryOut>
        ensures { IfOk result (λ n. (n ≡ length self.old.ends.items) × AddsEnd self.old self.new end.entry) }
    {
        let number = self.ends.len();
        self.kinds.push(end.kind)?;
        self.ends.push(end)?;
        self.graph.push(Vec::new(alloc))?;
        Ok(number)
    }
}
