//! What is declared and what is visible before a place of a module.

ghost use Rattle.std.specs.Prelude.{◌≡◌, ◌+◌, List, Some, None, [], ◌∷◌, IfOk, OnOk, IfSome, is_some, option_map};
ghost use Rattle.fir_ast.specs.Statements.{PlacedName};
ghost use Rattle.fir_ast.specs.working.Views.{named_of};
ghost use Rattle.fir_ast.specs.working.CodeFaults.{fault_of};
ghost use Rattle.fir_pass.specs.Groups.{first_of};
ghost use Rattle.fir_meaning.specs.Components as meant;
ghost use Rattle.fir_meaning.specs.Components.{Declarations, find_name};
ghost use Rattle.fir_meaning.specs.Visibility.{Before, at_head, with_declaration};
ghost use Rattle.fir_meaning.specs.Mentions.{declares, names_declared};
ghost use Rattle.fir_meaning.specs.NameGroups.{mention_faults};
ghost use Rattle.fir_names.specs.working.Numbered.{component_of};
ghost use Rattle.fir_names.specs.working.Tabulated.{Tabulates};
ghost use Rattle.fir_resolve.specs.working.Opened.{is_open, Opens, Closes};
ghost use Rattle.fir_resolve.specs.working.Scoped.{Walks, is_seen};

use crate::faults::twice;
use fir_ast::{FirFault, Ident};
use fir_base::{MemoryOut, Name};
use fir_names::{Component, Declaration, Names};
use std::alloc::Global;

/// The declarations so far, over all blocks; and for each when that is open how many stood before its
/// open block.
#[derive(Drop)]
pub struct Scope {
    pub names: Names,
    pub opened: Vec<usize>,
}

impl Scope {
    /// Before the first port of a module.
    pub fn new(alloc: Global) -> Scope
        ensures { (modules : List PlacedName) → Walks modules result at_head }
    {
        Scope {
            names: Names::new(alloc),
            opened: Vec::new(alloc),
        }
    }

    /// How many are declared before a name that is visible; None where it is not.
    pub fn position_of(&self, name: &Name) -> Option<usize>
        ensures { is_some result ≡ is_seen self.now name.now }
    {
        let declaration = self.names.find(name)?;
        if self.is_open(declaration) {
            Some(declaration.position)
        } else {
            None
        }
    }

    /// Whether the block of a declaration is open.
    fn is_open(&self, declaration: &Declaration) -> bool
        ensures { result ≡ is_open self.now.opened.items declaration.now.position declaration.now.depth }
    {
        if declaration.depth == 0 {
            return true;
        }
        match self.opened.get(declaration.depth - 1) {
            Some(start) => *start <= declaration.position,
            None => false,
        }
    }

    /// E09, where the name of a declaration is declared already.
    pub fn repeated(&self, alloc: Global, ident: &Ident) -> Result<Option<FirFault>, MemoryOut>
        ensures { IfOk result (λ f. (modules : List PlacedName) (before : Before) → Walks modules self.now before → option_map fault_of f ≡ first_of (mention_faults (declares (names_declared before) (named_of ident.now)))) }
    {
        match self.names.find(&ident.name) {
            Some(first) => Ok(Some(twice(alloc, ident.place, &ident.name, first.place)?)),
            None => Ok(None),
        }
    }

    /// Declares a name that is not declared yet.
    pub fn declare(
        &mut self,
        alloc: Global,
        ident: &Ident,
        component: Component,
    ) -> Result<(), MemoryOut>
        ensures walks { OnOk result ((modules : List PlacedName) (before : Before) (c : meant.Component) → Walks modules self.old before → find_name (names_declared before) ident.now.name ≡ None → component ≡ component_of modules c → Walks modules self.new (with_declaration before (named_of ident.now) c)) }
        ensures still_open { self.new.opened.items ≡ self.old.opened.items }
    {
        let depth = self.opened.len();
        self.names.declare(alloc, ident, component, depth)?;
        Ok(())
    }

    /// Opens a block of a when.
    pub fn open(&mut self) -> Result<(), MemoryOut>
        ensures { OnOk result (Opens self.old self.new) }
    {
        self.opened.push(self.names.len())?;
        Ok(())
    }

    /// Closes the block that was opened last.
    pub fn close(&mut self)
        ensures { Closes self.old self.new }
    {
        let _ = self.opened.pop();
    }

    /// The table of what was declared, and what was noted of the expressions.
    pub fn into_names(self, noted: Vec<usize>) -> Names
        ensures { (modules : List PlacedName) (ds : Declarations) → Tabulates modules self.names ds → Tabulates modules result ds }
    {
        let Scope { names, opened: _ } = self;
        names.with_noted(noted)
    }
}
