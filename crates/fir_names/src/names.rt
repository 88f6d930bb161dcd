//! The table of what a module declares.

ghost use Rattle.std.specs.Prelude.{◌≡◌, List, None, OnOk, [], ◌∷◌, ◌++◌, option_copied};
ghost use Rattle.fir_ast.specs.Statements.{PlacedName};
ghost use Rattle.fir_ast.specs.working.Views.{named_of};
ghost use Rattle.fir_meaning.specs.Components as meant;
ghost use Rattle.fir_meaning.specs.Components.{Declarations};
ghost use Rattle.fir_names.specs.working.Numbered.{component_of};
ghost use Rattle.fir_names.specs.working.Tabulated.{Tabulates, entry_at, entry_count, found};

use crate::declaration::{Component, Declaration};
use fir_ast::Ident;
use fir_base::{MemoryOut, Name};
use indexmap::IndexMap;
use std::alloc::Global;

/// The declarations of a module, in the order of the text, each under the bytes that spell its name.
pub struct Names {
    declarations: IndexMap<Vec<u8>, Declaration>,
    /// For each expression of the module, in the order in which their ends come, how many are declared
    /// before what a reference names; of any other form, and of a reference in an index, it is a guess.
    noted: Vec<usize>,
}

// Not derived, so that a drop is a call, which is proved once.
impl Drop for Names {
    fn drop(self) {
        let Names {
            declarations: _,
            noted: _,
        } = self;
    }
}

impl Names {
    /// Nothing is declared.
    pub fn new(alloc: Global) -> Names
        ensures { (modules : List PlacedName) → Tabulates modules result [] }
    {
        Names {
            declarations: IndexMap::new(alloc),
            noted: Vec::new(alloc),
        }
    }

    /// How many declarations there are.
    pub fn len(&self) -> usize
        ensures { result ≡ entry_count self.now }
    {
        self.declarations.len()
    }

    /// The declaration before which so many stand.
    pub fn at(&self, position: usize) -> Option<&Declaration>
        ensures { option_copied result ≡ entry_at self.now position }
    {
        let (_, declaration) = self.declarations.get_index(position)?;
        Some(declaration)
    }

    /// The declaration of a name.
    pub fn find(&self, name: &Name) -> Option<&Declaration>
        ensures { option_copied result ≡ found self.now name.now }
    {
        self.declarations.get(name.as_bytes())
    }

    /// The declaration of a name, which is not searched where it is the one before which so many stand.
    pub fn find_near(&self, position: usize, name: &Name) -> Option<&Declaration>
        ensures { option_copied result ≡ found self.now name.now }
    {
        match self.declarations.get_index(position) {
            Some((known, declaration)) if known.as_slice() == name.as_bytes() => Some(declaration),
            _ => self.find(name),
        }
    }

    /// The declaration of the name of a reference before which so many expressions have ended: it is not
    /// searched where it is what was noted of that reference.
    pub fn find_noted(&self, ended: usize, name: &Name) -> Option<&Declaration>
        ensures { option_copied result ≡ found self.now name.now }
    {
        let position = self.noted.get(ended).copied().unwrap_or(0);
        self.find_near(position, name)
    }

    /// Declares a name that is not declared yet, within so many whens.
    pub fn declare(
        &mut self,
        alloc: Global,
        ident: &Ident,
        component: Component,
        depth: usize,
    ) -> Result<(), MemoryOut>
        ensures { OnOk result ((modules : List PlacedName) (ds : Declarations) (d : meant.Declaration) → Tabulates modules self.old ds → meant.find ds ident.now.name ≡ None → d.named ≡ named_of ident.now → component ≡ component_of modules d.component → depth ≡ d.depth → Tabulates modules self.new (ds ++ d ∷ [])) }
    {
        let declaration = Declaration {
            place: ident.place,
            component,
            position: self.declarations.len(),
            depth,
        };
        let name = Vec::from_slice(alloc, ident.name.as_bytes())?;
        self.declarations.insert(name, declaration)?;
        Ok(())
    }

    /// The same table with this noted of the expressions.
    pub fn with_noted(self, noted: Vec<usize>) -> Names
        ensures { (modules : List PlacedName) (ds : Declarations) → Tabulates modules self ds → Tabulates modules result ds }
    {
        let Names {
            declarations,
            noted: _,
        } = self;
        Names {
            declarations,
            noted,
        }
    }
}
