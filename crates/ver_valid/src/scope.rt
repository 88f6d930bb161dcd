//! The names that are declared so far.

ghost use Rattle.std.specs.Prelude.{◌≡◌, List, [], ◌∷◌, ◌++◌, ℕ, OnOk, is_some};
ghost use Rattle.fir_base.specs.Lists.{In};
ghost use Rattle.ver_ast.specs.declared.tree.Verilog.{Verilog};
ghost use Rattle.ver_ast.specs.Nets.{clocks, nets, regs};
ghost use Rattle.ver_valid.specs.working.Judgement.{Judges, Gives};
ghost use Rattle.ver_valid.specs.working.Declarations.{Entry, entry_names, IsNarrowKind};
ghost use Rattle.ver_valid.specs.working.Scopes.{Finds, GivesTarget, HasArray, Tells, TellsOf, found};

use crate::declared::Declared;
use crate::misfit::Misfit;
use fir_base::{Name, Refused};
use indexmap::IndexMap;
use std::alloc::Global;

/// What each name is declared as, in the order of the text.
pub struct Scope {
    names: IndexMap<Vec<u8>, Declared>,
}

// Not derived, so that a drop is a call, which is proved once.
impl Drop for Scope {
    fn drop(self) {
        let Scope { names: _ } = self;
    }
}

/// What an assign can drive.
#[derive(Clone, Copy)]
pub enum Target {
    /// A clock output.
    Clock,
    /// A wire or an output, with its width.
    Net(u32),
}

impl Scope {
    /// Nothing is declared.
    pub fn new(alloc: Global) -> Scope
        ensures { TellsOf result [] }
    {
        Scope {
            names: IndexMap::new(alloc),
        }
    }

    /// Declares a name that is not declared yet.
    pub fn declare(
        &mut self,
        alloc: Global,
        name: &Name,
        declared: Declared,
    ) -> Result<(), Refused<Misfit>>
        ensures fresh { (es : List Entry) → TellsOf self.old es → Judges result (In (entry_names es) name.now → ⊥) }
        ensures told { OnOk result ((es : List Entry) → TellsOf self.old es → IsNarrowKind declared → TellsOf self.new (es ++ (name.now, declared) ∷ [])) }
    {
        if self.has(name) {
            return Err(Refused::Fault(Misfit::Twice));
        }
        let name = Vec::from_slice(alloc, name.as_bytes())?;
        self.names.insert(name, declared)?;
        Ok(())
    }

    fn has(&self, name: &Name) -> bool
        ensures { result ≡ is_some (found self.now name.now) }
    {
        self.names.get(name.as_bytes()).is_some()
    }

    /// What the name is declared as.
    fn find(&self, name: &Name) -> Result<Declared, Refused<Misfit>>
        ensures { Finds result (found self.now name.now) }
    {
        match self.names.get(name.as_bytes()) {
            Some(declared) => Ok(*declared),
            None => Err(Refused::Fault(Misfit::Undeclared)),
        }
    }

    /// The name is a clock input.
    pub fn clock(&self, name: &Name) -> Result<(), Refused<Misfit>>
        ensures { (v : Verilog) → Tells self.now v → Judges result (In (clocks v) name.now) }
    {
        match self.find(name)? {
            Declared::ClockInput => Ok(()),
            _ => Err(Refused::Fault(Misfit::Unfit)),
        }
    }

    /// The width of the net of that name.
    pub fn net(&self, name: &Name) -> Result<u32, Refused<Misfit>>
        ensures { (v : Verilog) → Tells self.now v → Gives result (λ w. In (nets v) (name.now, w)) }
    {
        match self.find(name)?.net_width() {
            Some(width) => Ok(width),
            None => Err(Refused::Fault(Misfit::Unfit)),
        }
    }

    /// The width of the register of that name.
    pub fn register(&self, name: &Name) -> Result<u32, Refused<Misfit>>
        ensures { (v : Verilog) → Tells self.now v → Gives result (λ w. In (regs v) (name.now, w)) }
    {
        match self.find(name)?.register_width() {
            Some(width) => Ok(width),
            None => Err(Refused::Fault(Misfit::Unfit)),
        }
    }

    /// The width of the words of the array of that name.
    pub fn array(&self, name: &Name) -> Result<u32, Refused<Misfit>>
        ensures { (v : Verilog) → Tells self.now v → Gives result (HasArray v name.now) }
    {
        match self.find(name)?.word_width() {
            Some(width) => Ok(width),
            None => Err(Refused::Fault(Misfit::Unfit)),
        }
    }

    /// What an assign to the name drives.
    pub fn target(&self, name: &Name) -> Result<Target, Refused<Misfit>>
        ensures { (v : Verilog) → Tells self.now v → GivesTarget result v name.now }
    {
        let declared = self.find(name)?;
        if let Declared::ClockOutput = declared {
            return Ok(Target::Clock);
        }
        match declared.driven_width() {
            Some(width) => Ok(Target::Net(width)),
            None => Err(Refused::Fault(Misfit::Unfit)),
        }
    }
}
