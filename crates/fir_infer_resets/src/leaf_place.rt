//! What the first name of a leaf's path declares.

ghost use Rattle.std.specs.Prelude.{◌≡◌, ℕ, Some, drop, option_copied};
ghost use Rattle.fir_ast.specs.working.Views.{circuit_of};
ghost use Rattle.fir_meaning.specs.Components.{Declaration as Declared};
ghost use Rattle.fir_meaning.specs.Mentions.{module_names};
ghost use Rattle.fir_names.specs.working.Numbered.{component_of, module_number as number_of_instance};
ghost use Rattle.fir_names.specs.working.Tabulated.{entry_of};
ghost use Rattle.fir_reset.specs.working.DeclaredLeaves.{Declares};
ghost use Rattle.fir_infer_resets.specs.working.Holding.{path_of};

use crate::item::Step;
use fir_ast::Place;
use fir_names::{Component, Declaration, Named};

/// The declaration of the first name of a path in the module of that number.
fn declaration<'n>(named: &'n Named, module_number: usize, path: &[Step]) -> Option<&'n Declaration>
    ensures { (d : Declared) → Declares (circuit_of named.now) module_number (path_of path.now) d → (position : ℕ) × (option_copied result ≡ Some (entry_of (module_names (circuit_of named.now)) position d)) }
{
    match path.first()? {
        Step::Named(name) => named.names(module_number)?.find(name),
        Step::Element(_) => None,
    }
}

/// Where the first name of a path is declared; of one that is not, the head of the text.
pub fn place_of(named: &Named, module_number: usize, path: &[Step]) -> Place
    ensures { (d : Declared) → Declares (circuit_of named.now) module_number (path_of path.now) d → result ≡ d.named.place }
{
    match declaration(named, module_number, path) {
        Some(declaration) => declaration.place,
        None => Place { line: 1, col: 1 },
    }
}

/// The number of the module of which the first name of a path is an instance.
pub fn instance_of(named: &Named, module_number: usize, path: &[Step]) -> Option<usize>
    ensures { (d : Declared) → Declares (circuit_of named.now) module_number (path_of path.now) d → result ≡ number_of_instance (component_of (module_names (circuit_of named.now)) d.component) }
{
    match declaration(named, module_number, path)?.component {
        Component::Instance(child) => Some(child),
        _ => None,
    }
}

/// The path behind its first step.
pub fn behind_first<'p, 'a>(path: &'p [Step<'a>]) -> &'p [Step<'a>]
    ensures { result.now ≡ drop 1 path.now }
{
    match path {
        [_, rest @ ..] => rest,
        [] => path,
    }
}
