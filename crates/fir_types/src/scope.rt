//! What is declared so far in a module.

ghost use Rattle.std.specs.Prelude.{◌≡◌, Some, [], ◌∷◌, IfOk, option_map};
ghost use Rattle.fir_ast.specs.working.TypeViews.{type_of};
ghost use Rattle.fir_meaning.specs.LeafPaths.{named};
ghost use Rattle.fir_meaning.specs.Reaching.{root};
ghost use Rattle.fir_meaning.specs.TypedScopes.{TypedScope};
ghost use Rattle.fir_type_table.specs.working.Tables.{types_of};
ghost use Rattle.fir_types.specs.working.Known.{Knows};
ghost use Rattle.fir_types.specs.working.Notes.{root_range};
ghost use Rattle.fir_types.specs.working.Noted.{IsRootRange};
ghost use Rattle.fir_types.specs.working.Seen.{found_type, reached_as, seen};
ghost use Rattle.fir_types.specs.working.Walked.{Declared, DeclaredFound, IsHeld, Written};

use crate::flow::Flow;
use crate::found::Found;
use crate::reach::Reach;
use fir_ast::Ty;
use fir_base::{MemoryOut, Name};
use fir_names::Names;
use fir_type_table::TypeTable;
use std::alloc::Global;

/// The types that were met so far, and those of the declarations of the module, in the order of the text.
#[derive(Drop)]
pub struct Scope {
    pub table: TypeTable,
    pub declared: Vec<Option<Found>>,
}

impl Scope {
    /// What the name of a reference reaches, before which so many expressions have ended.
    pub fn root(&self, names: &Names, ended: usize, name: &Name) -> Option<Reach>
        ensures reached { (typed : TypedScope) → Knows names.now self.now typed → option_map (reached_as (types_of self.now.table) (named name.now ∷ [])) result ≡ (root typed name.now).has }
        ensures range { (typed : TypedScope) → Knows names.now self.now typed → IsRootRange (types_of self.now.table) result (root_range typed name.now) }
    {
        let declaration = names.find_noted(ended, name)?;
        let found = self.declared.get(declaration.position)?;
        Some(Reach {
            declaration: declaration.position,
            found: (*found)?,
            flow: Flow::of(declaration.component),
            leads: true,
            offset: 0,
            shared_offset: 0,
        })
    }

    /// Puts a type into the table.
    pub fn add(&mut self, alloc: Global, ty: &Ty) -> Result<Found, MemoryOut>
        ensures { IfOk result (λ found. Written self.old self.new found (type_of ty.now)) }
    {
        let id = self.table.add(alloc, ty)?;
        Ok(Found::Type(id, false))
    }

    /// Declares something of a type that is written.
    pub fn declare(&mut self, alloc: Global, ty: &Ty) -> Result<(), MemoryOut>
        ensures { IfOk result (λ _. Declared self.old self.new (type_of ty.now)) }
    {
        let found = self.add(alloc, ty)?;
        self.declared.push(Some(found))?;
        Ok(())
    }

    /// Declares something that is found to be of a type, or to have none.
    pub fn declare_found(&mut self, found: Option<Found>) -> Result<(), MemoryOut>
        ensures { IfOk result (λ _. DeclaredFound self.old self.new (seen (types_of self.old.table) found)) }
    {
        let found = self.held(found);
        self.declared.push(found)?;
        Ok(())
    }

    /// The same type, if there is one, under an id that the table has.
    pub fn held(&self, found: Option<Found>) -> Option<Found>
        ensures held { IsHeld (types_of self.now.table) result }
        ensures same { seen (types_of self.now.table) result ≡ seen (types_of self.now.table) found }
    {
        match found {
            Some(found) => Some(self.held_type(found)),
            None => None,
        }
    }

    /// The same type, under an id that the table has: under another it counts as a UInt.
    pub fn held_type(&self, found: Found) -> Found
        ensures held { IsHeld (types_of self.now.table) (Some result) }
        ensures same { found_type (types_of self.now.table) result ≡ found_type (types_of self.now.table) found }
    {
        match found {
            Found::Type(id, _) if !self.table.has(id) => Found::Number(false, None),
            _ => found,
        }
    }
}
