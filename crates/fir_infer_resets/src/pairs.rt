//! What meets is joined, leaf by leaf: of vectors the first elements stand for all.

ghost use Rattle.std.specs.Prelude.{◌≡◌, ◌⊎◌, ◌↔◌, [], ◌∷◌, ◌++◌, IsTrue, OnOk, Some, false, true};
ghost use Rattle.fir_ast.specs.Types.{DataType};
ghost use Rattle.fir_ast.specs.working.Views.{circuit_of};
ghost use Rattle.fir_meaning.specs.working.NameGroups.{HasNames};
ghost use Rattle.fir_meaning.specs.TypeGroup.{type_faults};
ghost use Rattle.fir_infer_resets.specs.working.FirstEnds.{JoinsMet};
ghost use Rattle.fir_infer_resets.specs.working.FirstPairs.{first_pairs, kind_of_type, met_pairs, partial_fields_met};
ghost use Rattle.fir_infer_resets.specs.working.Holding.{path_of, step_of};
ghost use Rattle.fir_infer_resets.specs.working.Shapes.{fields_shown};
ghost use Rattle.fir_type_table.specs.working.Tables.{member_fields, members_at, shown_fields, types_of};
ghost use Rattle.fir_types.specs.working.Seen.{found_type};

use crate::graph::Kind;
use crate::item::Step;
use crate::joined::Joined;
use crate::root::Root;
use crate::shapes::{Shapes, shapes_of};
use fir_base::MemoryOut;
use fir_names::Named;
use fir_type_table::{TypeId, TypeTable};
use fir_types::Found;
use fir_types::found::field;
use std::alloc::Global;

/// Two sides that meet in a module.
#[derive(Drop)]
pub struct Sides<'a> {
    pub named: &'a Named,
    pub table: &'a TypeTable,
    pub module_number: usize,
    pub left: Root<'a>,
    pub right: Root<'a>,
    /// Whether they meet in a partial connect.
    pub partly: bool,
}

impl<'a> Sides<'a> {
    /// Joins what stands behind these steps, of these types. The steps are in the end what they were.
    #[cycle(pairs)]
    pub fn join_types(
        &self,
        alloc: Global,
        one: Found,
        other: Found,
        steps: &mut Vec<Step<'a>>,
        joined: &mut Joined<'a>,
    ) -> Result<(), MemoryOut>
        requires names { HasNames (circuit_of self.now.named.now) }
        requires types { type_faults (circuit_of self.now.named.now) ≡ [] }
        ensures steps { OnOk result (steps.new.items ≡ steps.old.items) }
        ensures joined { OnOk result (JoinsMet (circuit_of self.now.named.now) self.now.module_number self.now.left self.now.right (met_pairs self.now.partly (path_of steps.old.items) (found_type (types_of self.now.table.now) one) (found_type (types_of self.now.table.now) other)) joined.old joined.new) }
    {
        match shapes_of(self.table, one, other) {
            Shapes::Bundles(a, x, b, y) => {
                if self.partly {
                    self.join_partial_fields(alloc, a, x, Found::Type(b, y), steps, joined)
                } else {
                    self.join_fields(alloc, a, x, b, y, steps, joined)
                }
            }
            Shapes::Vectors(s, t) => self.join_behind(alloc, Step::Element(0), s, t, steps, joined),
            Shapes::Scalars(k, l) => self.join_scalars(alloc, k, l, steps.as_slice(), joined),
            Shapes::Apart => Ok(()),
        }
    }

    /// The same behind one step more.
    #[cycle(pairs)]
    fn join_behind(
        &self,
        alloc: Global,
        step: Step<'a>,
        one: Found,
        other: Found,
        steps: &mut Vec<Step<'a>>,
        joined: &mut Joined<'a>,
    ) -> Result<(), MemoryOut>
        requires names { HasNames (circuit_of self.now.named.now) }
        requires types { type_faults (circuit_of self.now.named.now) ≡ [] }
        ensures steps { OnOk result (steps.new.items ≡ steps.old.items) }
        ensures joined { OnOk result (JoinsMet (circuit_of self.now.named.now) self.now.module_number self.now.left self.now.right (met_pairs self.now.partly (path_of steps.old.items ++ step_of step.entry ∷ []) (found_type (types_of self.now.table.now) one) (found_type (types_of self.now.table.now) other)) joined.old joined.new) }
    {
        steps.push(step)?;
        self.join_types(alloc, one, other, steps, joined)?;
        let _last = steps.pop();
        Ok(())
    }

    /// Joins the fields of two bundles, one by one in their order.
    #[cycle(pairs)]
    fn join_fields(
        &self,
        alloc: Global,
        a: TypeId,
        x: bool,
        b: TypeId,
        y: bool,
        steps: &mut Vec<Step<'a>>,
        joined: &mut Joined<'a>,
    ) -> Result<(), MemoryOut>
        requires names { HasNames (circuit_of self.now.named.now) }
        requires types { type_faults (circuit_of self.now.named.now) ≡ [] }
        requires partly { self.now.partly ≡ false }
        ensures steps { OnOk result (steps.new.items ≡ steps.old.items) }
        ensures joined { OnOk result (JoinsMet (circuit_of self.now.named.now) self.now.module_number self.now.left self.now.right (first_pairs (path_of steps.old.items) (fields_shown self.now.table.now x a.number) (fields_shown self.now.table.now y b.number)) joined.old joined.new) }
    {
        let fs = self.table.members(a);
        let gs = self.table.members(b);
        for i in 0..fs.len().min(gs.len()) {
            let f = &fs[i];
            let g = &gs[i];
            self.join_behind(
                alloc,
                Step::Named(&f.name),
                Found::Type(f.ty, x),
                Found::Type(g.ty, y),
                steps,
                joined,
            )?;
        }
        Ok(())
    }

    /// Joins the fields of a bundle with those of their names.
    #[cycle(pairs)]
    fn join_partial_fields(
        &self,
        alloc: Global,
        a: TypeId,
        x: bool,
        other: Found,
        steps: &mut Vec<Step<'a>>,
        joined: &mut Joined<'a>,
    ) -> Result<(), MemoryOut>
        requires names { HasNames (circuit_of self.now.named.now) }
        requires types { type_faults (circuit_of self.now.named.now) ≡ [] }
        requires partly { self.now.partly ≡ true }
        ensures steps { OnOk result (steps.new.items ≡ steps.old.items) }
        ensures joined { OnOk result (JoinsMet (circuit_of self.now.named.now) self.now.module_number self.now.left self.now.right (partial_fields_met (path_of steps.old.items) (shown_fields x (member_fields (types_of self.now.table.now) (members_at self.now.table.now a.number))) (found_type (types_of self.now.table.now) other)) joined.old joined.new) }
    {
        for member in self.table.members(a) {
            if let Some(found) = field(self.table, other, &member.name) {
                self.join_behind(
                    alloc,
                    Step::Named(&member.name),
                    Found::Type(member.ty, x),
                    found.found,
                    steps,
                    joined,
                )?;
            }
        }
        Ok(())
    }

    /// Joins two of these kinds, if one is a Reset.
    fn join_scalars(
        &self,
        alloc: Global,
        one: Kind,
        other: Kind,
        steps: &[Step<'a>],
        joined: &mut Joined<'a>,
    ) -> Result<(), MemoryOut>
        requires names { HasNames (circuit_of self.now.named.now) }
        requires types { type_faults (circuit_of self.now.named.now) ≡ [] }
        ensures { (t u : DataType) → kind_of_type t ≡ Some one → kind_of_type u ≡ Some other → OnOk result (JoinsMet (circuit_of self.now.named.now) self.now.module_number self.now.left self.now.right (record { path = path_of steps.now; one = t; other = u } ∷ []) joined.old joined.new) }
    {
        if !has_reset(one, other) {
            return Ok(());
        }
        let x = self
            .left
            .end(alloc, self.named, self.module_number, steps, one, joined)?;
        let Some(x) = x else {
            return Ok(());
        };
        let y = self.right.end(alloc, self.named, self.module_number, steps, other, joined)?;
        let Some(y) = y else {
            return Ok(());
        };
        joined.join(x, y)
    }
}

/// Whether one is a Reset.
fn has_reset(one: Kind, other: Kind) -> bool
    ensures { IsTrue result ↔ (one ≡ Kind.Reset ⊎ other ≡ Kind.Reset) }
{
    one == Kind::Reset || other == Kind::Reset
}
