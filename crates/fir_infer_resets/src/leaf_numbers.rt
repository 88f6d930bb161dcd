//! The numbers of leaves, by their paths.

ghost use Rattle.std.specs.Prelude.{◌≡◌, ◌∷◌, Some, option_map, slice_get};
ghost use Rattle.fir_ast.specs.Circuits.{CircuitTree, ModuleTree};
ghost use Rattle.fir_ast.specs.working.Views.{circuit_of};
ghost use Rattle.fir_meaning.specs.ComponentTypes.{typed_scope};
ghost use Rattle.fir_meaning.specs.LeafPaths as path;
ghost use Rattle.fir_meaning.specs.Visibility.{declarations};
ghost use Rattle.fir_type_table.specs.working.Saturated.{saturated};
ghost use Rattle.fir_type_table.specs.working.Tables.{types_of};
ghost use Rattle.fir_types.specs.working.Seen.{seen};
ghost use Rattle.fir_types.specs.working.TypedModules.{IsTyped, leaf_declared, type_declared};
ghost use Rattle.fir_infer_resets.specs.working.Holding.{path_of};
ghost use Rattle.fir_reset.specs.working.Inferred.{leaf_number};
ghost use Rattle.fir_infer_resets.specs.working.NumberedPaths.{position_known};
ghost use Rattle.fir_meaning.specs.ResetItems.{leaf_item};

use crate::item::Step;
use crate::leaf_offsets::leaves_before;
use fir_ast::LeafId;
use fir_base::Name;
use fir_names::Named;
use fir_types::{Findings, Found};

/// The number of the leaf of a path in the module of that number, where all elements of a vector have the
/// numbers of one and an instance has those of its module's ports; at most 2^64 - 1. Where no leaf has the
/// path it is None.
pub fn number_of(
    named: &Named,
    findings: &Findings,
    module_number: usize,
    path: &[Step],
) -> Option<u64>
    requires { IsTyped (circuit_of named.now) findings.now }
    ensures { result ≡ option_map saturated (leaf_number (circuit_of named.now) (leaf_item module_number (path_of path.now))) }
{
    let [first, rest @ ..] = path else {
        return None;
    };
    match first {
        Step::Named(name) => number_below(named, findings, module_number, name, rest),
        Step::Element(_) => None,
    }
}

/// That of the leaf to which these steps lead from what has that name.
fn number_below(
    named: &Named,
    findings: &Findings,
    module_number: usize,
    name: &Name,
    steps: &[Step],
) -> Option<u64>
    requires { IsTyped (circuit_of named.now) findings.now }
    ensures { result ≡ option_map saturated (leaf_number (circuit_of named.now) (leaf_item module_number (path.named name.now ∷ path_of steps.now))) }
{
    let position = position_of(named, module_number, name)?;
    let found = declared_type(findings, module_number, position)?;
    let before = leaves_before(&findings.table, found, steps)?;
    let first = first_leaf(findings, module_number, position)?;
    Some((first.number() as u64).saturating_add(before))
}

/// How many are declared in a module before what has that name.
fn position_of(named: &Named, module_number: usize, name: &Name) -> Option<usize>
    ensures { (m : ModuleTree) → slice_get (circuit_of named.now).modules module_number ≡ Some m → result ≡ position_known (typed_scope (circuit_of named.now).modules (declarations m)) name.now }
{
    let names = named.names(module_number)?;
    let declaration = names.find(name)?;
    Some(declaration.position)
}

/// The type of the declaration before which so many stand in a module.
fn declared_type(findings: &Findings, module_number: usize, position: usize) -> Option<Found>
    ensures { (c : CircuitTree) → IsTyped c findings.now → seen (types_of findings.now.table) result ≡ type_declared c module_number position }
{
    *findings.declared.get(module_number)?.get(position)?
}

/// Its first leaf.
fn first_leaf(findings: &Findings, module_number: usize, position: usize) -> Option<LeafId>
    ensures { (c : CircuitTree) → IsTyped c findings.now → result ≡ option_map saturated (leaf_declared c module_number position) }
{
    let first_leaves = findings.first_leaves.get(module_number)?;
    let first = first_leaves.get(position)?;
    Some(*first)
}
