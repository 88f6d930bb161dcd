//! A circuit with its types.

ghost use Rattle.std.specs.Prelude.{◌≡◌, [], IfOk, IfSome, is_some, option_map};
ghost use Rattle.fir_ast.specs.working.Views.{circuit_of};
ghost use Rattle.fir_ast.specs.working.TypeViews.{type_of};
ghost use Rattle.fir_meaning.specs.TypeGroup.{type_faults};
ghost use Rattle.fir_type_table.specs.working.Saturated.{saturated};
ghost use Rattle.fir_types.specs.working.LeafNumbers.{first_named};
ghost use Rattle.fir_types.specs.working.Notes.{LeafRange as Range};
ghost use Rattle.fir_types.specs.working.TypedModules.{IsTyped, leaf_declared, type_declared};

use crate::findings::Findings;
use crate::found::ty;
use crate::note::LeafRange;
use fir_ast::{LeafId, Ty};
use fir_base::MemoryOut;
use fir_names::Named;
use fir_pass::Meant;
use std::alloc::Global;
use std::marker::Model;

/// A circuit in which no fault of types stands, with the types of what each module declares. Contracts see
/// the tree that was given.
pub struct Typed {
    named: Named,
    findings: Findings,
}

// Not derived, so that a drop is a call, which is proved once.
impl Drop for Typed {
    fn drop(self) {
        let Typed {
            named: _,
            findings: _,
        } = self;
    }
}

impl Model for Typed {
    ghost use Rattle.fir_ast.specs.declared.circuit.Circuit as tree;
    ghost use Rattle.fir_ast.specs.contracts.circuit.Circuit as contract;

    ghost Value = { tree.Circuit };

    ghost coded = { contract.the_row.coded };

    ghost use Rattle.fir_ast.specs.working.Views.{circuit_of};
    ghost use Rattle.fir_types.specs.working.TypedModules.{IsTyped};

    ghost view = { λ t. t.named };

    ghost invariant = { λ t. IsTyped (circuit_of t.named) t.findings };
}

impl Meant for Typed {
    ghost use Rattle.fir_meaning.specs.working.Stages.{IsTreeOf};

    ghost is_of = { IsTreeOf };
}

impl Typed {
    /// The circuit with these types.
    pub fn new(named: Named, findings: Findings) -> Typed
        requires { IsTyped (circuit_of named) findings }
        ensures { result ≡ named }
    {
        Typed { named, findings }
    }

    /// The circuit with its names.
    pub fn named(&self) -> &Named
        ensures tree { result.now ≡ self.now }
        ensures clear { type_faults (circuit_of self.now) ≡ [] }
    {
        &self.named
    }

    /// What is found of the circuit: the types of what each module declares, and of each of its expressions;
    /// for each of its references what it names, where its leaves begin, and what its dynamic indices pick;
    /// and the number of the first leaf of each declaration.
    pub fn findings(&self) -> &Findings
        ensures { IsTyped (circuit_of self.now) result.now }
    {
        &self.findings
    }

    /// The type of the declaration before which so many stand in the module with that number, from 0 on in
    /// the order of the text, as a text would write it. Where neither is there it is None.
    pub fn declared_type(
        &self,
        alloc: Global,
        module_number: usize,
        position: usize,
    ) -> Result<Option<Ty>, MemoryOut>
        ensures { IfOk result (λ t. option_map type_of t ≡ type_declared (circuit_of self.now) module_number position) }
    {
        let Some(declared) = self.findings.declared.get(module_number) else {
            return Ok(None);
        };
        match declared.get(position) {
            Some(Some(found)) => Ok(Some(ty(alloc, &self.findings.table, *found)?)),
            _ => Ok(None),
        }
    }

    /// The first of the leaves that a reference in the module with that number names, where all elements of a
    /// vector have the numbers of one; at most 2^64 - 1. Where the module or the declaration is not there it
    /// is None.
    pub fn first_named(&self, module_number: usize, range: &LeafRange) -> Option<LeafId>
        ensures number { (meant : Range) → range.now.declaration ≡ meant.declaration → range.now.shared_offset ≡ saturated meant.shared_offset → IfSome result (λ l. l ≡ saturated (first_named (circuit_of self.now) module_number meant)) }
        ensures there { is_some result ≡ is_some (leaf_declared (circuit_of self.now) module_number range.now.declaration) }
    {
        let first_leaves = self.findings.first_leaves.get(module_number)?;
        let first = first_leaves.get(range.declaration)?;
        let number = (first.number() as u64).saturating_add(range.shared_offset);
        Some(LeafId::new(number as usize))
    }
}
