//! The types of a register: its own, its clock, and its reset (FIRRTL spec, "Registers").

ghost use Rattle.std.specs.Prelude.{◌≡◌, OnOk, option_map};
ghost use Rattle.fir_ast.specs.working.Views.{expr_of, named_of, reset_of};
ghost use Rattle.fir_meaning.specs.TypeGroup.{clock_faults, flipped_faults, register_type_faults, reset_faults};
ghost use Rattle.fir_meaning.specs.Checked.{shown_on};
ghost use Rattle.fir_meaning.specs.TypedScopes.{TypedScope};
ghost use Rattle.fir_type_table.specs.working.Tables.{types_of};
ghost use Rattle.fir_types.specs.working.Known.{Knows};
ghost use Rattle.fir_types.specs.working.ModuleNotes.{reset_notes};
ghost use Rattle.fir_types.specs.working.Notes.{expression_notes};
ghost use Rattle.fir_types.specs.working.Noted.{Noted};
ghost use Rattle.fir_types.specs.working.Seen.{found_type, seen};
ghost use Rattle.fir_check.specs.working.Registers.{condition_faults, init_faults, may_reset};
ghost use Rattle.fir_types.specs.working.Walked.{Judges};

use crate::expressions::in_expression;
use crate::faults::{not_passive, wrong_kind, wrong_types};
use crate::found_pairs::are_equivalent;
use fir_ast::{Expr, FirFault, Ident, RegisterReset};
use fir_base::Refused;
use fir_names::Names;
use fir_type_table::TypeTable;
use fir_types::found::{is_numeric, is_passive, sort};
use fir_types::{Found, Note, Scope, Sort, place_of};
use std::alloc::Global;

/// A register has UInt and SInt leaves alone, and no flips.
pub fn register_type(
    alloc: Global,
    table: &TypeTable,
    ident: &Ident,
    found: Found,
) -> Result<(), Refused<FirFault>>
    ensures { Judges (register_type_faults (named_of ident.now) (found_type (types_of table.now) found)) result }
{
    if !is_numeric(table, found) {
        return Err(wrong_kind(alloc, table, ident.place, found));
    }
    no_flips(alloc, table, ident, Some(found))
}

/// What is declared has no flips, if it has a type.
pub fn no_flips(
    alloc: Global,
    table: &TypeTable,
    ident: &Ident,
    found: Option<Found>,
) -> Result<(), Refused<FirFault>>
    ensures { Judges (shown_on (seen (types_of table.now) found) (flipped_faults (named_of ident.now))) result }
{
    match found {
        Some(found) if !is_passive(table, found) => {
            Err(not_passive(alloc, table, ident.place, found))
        }
        _ => Ok(()),
    }
}

/// A register's clock is a Clock.
pub fn in_clock(
    alloc: Global,
    names: &Names,
    scope: &Scope,
    notes: &mut Vec<Note>,
    clock: &Expr,
) -> Result<(), Refused<FirFault>>
    ensures found { (typed : TypedScope) → Knows names.now scope.now typed → Judges (clock_faults typed (expr_of clock.now)) result }
    ensures notes { (typed : TypedScope) → Knows names.now scope.now typed → OnOk result (Noted (types_of scope.now.table) notes.old.items notes.new.items (expression_notes typed (expr_of clock.now))) }
{
    match in_expression(clock, alloc, names, scope, notes)? {
        Some(found) if sort(&scope.table, found) != Sort::Clock => {
            Err(wrong_kind(alloc, &scope.table, place_of(clock), found))
        }
        _ => Ok(()),
    }
}

/// The condition of a reset is a UInt, a Reset or an AsyncReset, and its init fits the register.
pub fn in_reset(
    alloc: Global,
    names: &Names,
    scope: &Scope,
    notes: &mut Vec<Note>,
    register: Found,
    reset: &Option<RegisterReset>,
) -> Result<(), Refused<FirFault>>
    ensures found { (typed : TypedScope) → Knows names.now scope.now typed → Judges (reset_faults typed (found_type (types_of scope.now.table) register) (option_map reset_of reset.now)) result }
    ensures notes { (typed : TypedScope) → Knows names.now scope.now typed → OnOk result (Noted (types_of scope.now.table) notes.old.items notes.new.items (reset_notes typed (option_map reset_of reset.now))) }
{
    let Some(reset) = reset else {
        return Ok(());
    };
    in_condition(alloc, names, scope, notes, &reset.condition)?;
    in_init(alloc, names, scope, notes, register, &reset.init)
}

fn in_condition(
    alloc: Global,
    names: &Names,
    scope: &Scope,
    notes: &mut Vec<Note>,
    condition: &Expr,
) -> Result<(), Refused<FirFault>>
    ensures found { (typed : TypedScope) → Knows names.now scope.now typed → Judges (condition_faults typed (expr_of condition.now)) result }
    ensures notes { (typed : TypedScope) → Knows names.now scope.now typed → OnOk result (Noted (types_of scope.now.table) notes.old.items notes.new.items (expression_notes typed (expr_of condition.now))) }
{
    match in_expression(condition, alloc, names, scope, notes)? {
        Some(found) if !may_reset(sort(&scope.table, found)) => {
            Err(wrong_kind(alloc, &scope.table, place_of(condition), found))
        }
        _ => Ok(()),
    }
}

fn may_reset(sort: Sort) -> bool
    ensures { result ≡ may_reset sort }
{
    matches!(sort, Sort::UInt | Sort::Reset | Sort::AsyncReset)
}

fn in_init(
    alloc: Global,
    names: &Names,
    scope: &Scope,
    notes: &mut Vec<Note>,
    register: Found,
    init: &Expr,
) -> Result<(), Refused<FirFault>>
    ensures found { (typed : TypedScope) → Knows names.now scope.now typed → Judges (init_faults typed (found_type (types_of scope.now.table) register) (expr_of init.now)) result }
    ensures notes { (typed : TypedScope) → Knows names.now scope.now typed → OnOk result (Noted (types_of scope.now.table) notes.old.items notes.new.items (expression_notes typed (expr_of init.now))) }
{
    match in_expression(init, alloc, names, scope, notes)? {
        Some(found) if !are_equivalent(&scope.table, register, found) => {
            let table = &scope.table;
            Err(wrong_types(alloc, table, place_of(init), register, found))
        }
        _ => Ok(()),
    }
}
