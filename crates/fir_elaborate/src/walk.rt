//! The walk through the instances of a design.

ghost use Rattle.std.specs.Prelude.{◌≡◌, ℕ, ◌+◌, ◌-◌, ◌<◌, ◌++◌, codes, IfOk, List, OnOk, length, map, reverse};
ghost use Rattle.fir_meaning.specs.working.Designs.{Design, IsDesignOf, module_of};
ghost use Rattle.fir_meaning.specs.working.LeafModules.{LeafModule as Viewed};
ghost use Rattle.fir_leaf_circuit.specs.declared.array.LeafArray.{LeafArray as ArrayOfCode};
ghost use Rattle.fir_elaborate.specs.declared.walk.Pending.TheVariants as pending;
ghost use Rattle.fir_elaborate.specs.working.Elaborations.{AreViewed, IsElaborated};
ghost use Rattle.fir_elaborate.specs.working.Walks.{AreHeld, IsUnderWay, Takes, module_part, parts};

use crate::elaborated::{Elaborated, ModuleCopy};
use crate::instances::instances_of_all;
use crate::numbers::{Numbers, Stretch};
use crate::words::{arrays_before, push_arrays, push_words};
use fir_base::{MemoryOut, Name};
use fir_leaf::LeafInstance;
use fir_leaf_circuit::{LeafArray, LeafModule};
use std::alloc::Global;

/// More steps than the walk through a circuit within the limit of costs takes: each module of the design takes three,
/// and each but the main one costs 1 at least.
const MOST_STEPS: usize = 16777216;

/// What is still to come of the walk.
#[derive(Drop)]
enum Pending {
    /// The module of that number, whose ports have the leaves from a number on, behind what stands before the paths of
    /// its leaves.
    Module(usize, usize, Name),
    /// The words among some leaves of a copy, and some of its arrays.
    Words(Numbers, Stretch),
}

/// How far the walk has come: what is found, what is still to come, the next of it last, and the first numbers that no
/// leaf and no array has yet.
#[derive(Drop)]
struct Walk {
    found: Elaborated,
    pending: Vec<Pending>,
    free: usize,
    free_array: usize,
}

/// The modules of the design below the main module, which has that number, where each module declares these names; and
/// the words and the arrays of the design's state in their order (FIRRTL spec, "Instances", "Registers", "Memories"). It
/// takes no recursion, and time in proportion to the leaves and the arrays of the design and the bytes of the paths of
/// its instances.
pub fn elaborate(
    alloc: Global,
    modules: &[LeafModule],
    names: &[Vec<Name>],
    main: usize,
) -> Result<Elaborated, MemoryOut>
    ensures { IfOk result (λ e. (views : List Viewed) (d : Design) → AreViewed views modules.now (map (λ ns. ns.items) names.now) → main < length views → IsDesignOf views (module_of views main) d → IsElaborated main d e) }
{
    let held = instances_of_all(alloc, modules)?;
    let mut walk = Walk::new(alloc, modules, main)?;
    for _ in 0..MOST_STEPS {
        match walk.pending.pop() {
            Some(next) => walk.take(alloc, modules, &held, names, next)?,
            None => return Ok(walk.found),
        }
    }
    Err(MemoryOut)
}

impl Walk {
    /// Before its first step: the main module, whose ports have the first leaves, is to come.
    fn new(alloc: Global, modules: &[LeafModule], main: usize) -> Result<Walk, MemoryOut>
        ensures { IfOk result (λ w. (names : List (List (List ℕ))) → IsUnderWay modules.now names main w) }
    {
        let module = modules.get(main).ok_or(MemoryOut)?;
        let mut pending = Vec::new(alloc);
        pending.push(Pending::Module(main, 0, Name::from_vec(Vec::new(alloc))))?;
        Ok(Walk {
            found: Elaborated {
                copies: Vec::new(alloc),
                state: Vec::new(alloc),
                array_order: Vec::new(alloc),
            },
            pending,
            free: module.port_leaves,
            free_array: 0,
        })
    }

    /// Goes on with what came next.
    fn take(
        &mut self,
        alloc: Global,
        modules: &[LeafModule],
        held: &[Vec<LeafInstance>],
        names: &[Vec<Name>],
        next: Pending,
    ) -> Result<(), MemoryOut>
        requires { AreHeld modules.now (map (λ is. is.items) held.now) }
        ensures { OnOk result (Takes modules.now (map (λ ns. ns.items) names.now) next self.old self.new) }
    {
        match next {
            Pending::Module(number, first, prefix) => {
                self.enter(alloc, modules, held, names, number, first, prefix)
            }
            Pending::Words(at, some) => self.put_words(modules, at, some),
        }
    }

    /// Finds a copy of a module, whose instances and words are to come.
    fn enter(
        &mut self,
        alloc: Global,
        modules: &[LeafModule],
        held: &[Vec<LeafInstance>],
        names: &[Vec<Name>],
        number: usize,
        first: usize,
        prefix: Name,
    ) -> Result<(), MemoryOut>
        requires { AreHeld modules.now (map (λ is. is.items) held.now) }
        ensures { OnOk result (Takes modules.now (map (λ ns. ns.items) names.now) (pending.Module number first prefix) self.old self.new) }
    {
        let module = modules.get(number).ok_or(MemoryOut)?;
        let instances = held.get(number).ok_or(MemoryOut)?;
        let declared = names.get(number).ok_or(MemoryOut)?;
        let own = self.free;
        let array = self.free_array;
        let at = Numbers {
            module_number: number,
            ports: module.port_leaves,
            first,
            own,
            array,
        };
        let free = behind_inner(own, module)?;
        let free_array = behind_arrays(array, module)?;
        push_parts(
            alloc,
            at,
            module.leaves.len(),
            &module.arrays,
            declared,
            &prefix,
            instances,
            &mut self.pending,
        )?;
        self.found.copies.push(ModuleCopy {
            module_number: number,
            first,
            own,
            array,
            prefix,
        })?;
        self.free = free;
        self.free_array = free_array;
        Ok(())
    }

    /// Finds the words among some leaves of a copy, and some of its arrays.
    fn put_words(
        &mut self,
        modules: &[LeafModule],
        at: Numbers,
        some: Stretch,
    ) -> Result<(), MemoryOut>
        ensures { OnOk result ((names : List (List (List ℕ))) → Takes modules.now names (pending.Words at some) self.old self.new) }
    {
        let module = modules.get(at.module_number).ok_or(MemoryOut)?;
        push_words(
            &module.leaves,
            at,
            some.from,
            some.upto,
            &mut self.found.state,
        )?;
        push_arrays(
            &module.arrays,
            at,
            some.arrays_from,
            some.arrays_upto,
            &mut self.found.array_order,
        )
    }
}

/// The number behind those of the leaves of a module that are no ports, the first of which is given.
fn behind_inner(own: usize, part: &LeafModule) -> Result<usize, MemoryOut>
    ensures { IfOk result (λ y. y ≡ own + (length part.now.leaves.items - part.now.port_leaves)) }
{
    let inner = part
        .leaves
        .len()
        .checked_sub(part.port_leaves)
        .ok_or(MemoryOut)?;
    own.checked_add(inner).ok_or(MemoryOut)
}

/// The number behind those of the arrays of a module, the first of which is given.
fn behind_arrays(array: usize, part: &LeafModule) -> Result<usize, MemoryOut>
    ensures { IfOk result (λ y. y ≡ array + length part.now.arrays.items) }
{
    array.checked_add(part.arrays.len()).ok_or(MemoryOut)
}

/// Puts what is to come of a copy onto the rest: its words and arrays up to its first instance, that instance, and so
/// on.
fn push_parts(
    alloc: Global,
    at: Numbers,
    leaves: usize,
    arrays: &[LeafArray],
    names: &[Name],
    prefix: &Name,
    instances: &[LeafInstance],
    pending: &mut Vec<Pending>,
) -> Result<(), MemoryOut>
    ensures { OnOk result (pending.new.items ≡ pending.old.items ++ reverse (parts at leaves (map (λ (a : ArrayOfCode). a.declaration) arrays.now) names.now prefix.now instances.now)) }
{
    let mut upto = leaves;
    let mut arrays_upto = arrays.len();
    for place in (0..instances.len()).rev() {
        let instance = instances[place];
        let arrays_from = arrays_before(arrays, arrays_upto, instance.declaration)?;
        pending.push(Pending::Words(
            at,
            Stretch {
                from: instance.first,
                upto,
                arrays_from,
                arrays_upto,
            },
        ))?;
        pending.push(pending_module(alloc, at, names, prefix, instance)?)?;
        upto = instance.first;
        arrays_upto = arrays_from;
    }
    pending.push(Pending::Words(
        at,
        Stretch {
            from: 0,
            upto,
            arrays_from: 0,
            arrays_upto,
        },
    ))?;
    Ok(())
}

/// The module of an instance of a copy.
fn pending_module(
    alloc: Global,
    at: Numbers,
    names: &[Name],
    prefix: &Name,
    instance: LeafInstance,
) -> Result<Pending, MemoryOut>
    ensures { IfOk result (λ p. p ≡ module_part at names.now prefix.now instance) }
{
    let first = at.number(instance.first)?;
    let name = names.get(instance.declaration).ok_or(MemoryOut)?;
    let inner = prefix_below(alloc, prefix, name)?;
    Ok(Pending::Module(instance.module_number, first, inner))
}

/// What stands before the paths of the leaves of an instance of this name, by what does in the module that holds it.
fn prefix_below(alloc: Global, prefix: &Name, name: &Name) -> Result<Name, MemoryOut>
    ensures { IfOk result (λ p. p ≡ prefix.now ++ (name.now ++ codes ".")) }
{
    let mut bytes = Vec::from_slice(alloc, prefix.as_bytes())?;
    bytes.extend_from_slice(name.as_bytes())?;
    bytes.push(b'.')?;
    Ok(Name::from_vec(bytes))
}
