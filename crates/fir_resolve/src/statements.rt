//! The names in statements, in the order of the text, blocks of whens entered.

ghost use Rattle.std.specs.Prelude.{◌≡◌, List, [], ◌∷◌, ◌++◌, IfOk, map, option_map};
ghost use Rattle.fir_ast.specs.declared.place.Place.{Place};
ghost use Rattle.fir_ast.specs.Statements.{PlacedName};
ghost use Rattle.fir_ast.specs.working.Views.{block_of, expr_of, memory_part_of, named_of, reset_of, sink_of, stmt_of};
ghost use Rattle.fir_ast.specs.working.TypeViews.{type_of};
ghost use Rattle.fir_ast.specs.working.CodeFaults.{fault_of};
ghost use Rattle.fir_pass.specs.Groups.{first_of};
ghost use Rattle.fir_meaning.specs.Components as meant;
ghost use Rattle.fir_meaning.specs.Components.{Declarations};
ghost use Rattle.fir_meaning.specs.Visibility.{Before, behind, behind_block, with_declaration};
ghost use Rattle.fir_meaning.specs.Mentions.{block_mentions, declares, expression_mentions, instantiates, memory_mentions, mentions, names_declared, reset_mentions, sink_mentions, type_mentions};
ghost use Rattle.fir_meaning.specs.NameGroups.{faults_in};
ghost use Rattle.fir_names.specs.working.Numbered.{HasNumbers, component_of};
ghost use Rattle.fir_resolve.specs.working.Scoped.{Passes, Sees, Walks};
ghost use Rattle.fir_names.specs.working.Parts.{register_mentions, when_view};

use crate::expressions::{in_expression, in_reference};
use crate::faults::unknown;
use crate::fields::in_type;
use crate::memory_ports::in_memory;
use crate::numbers::Numbers;
use crate::scope::Scope;
use fir_ast::{Expr, FirFault, Ident, Memory, Reference, Register, RegisterReset, Stmt, Ty, When};
use fir_base::MemoryOut;
use fir_names::Component;
use std::alloc::Global;

/// The first fault of names in statements, which are declared as they are passed.
#[cycle(statements)]
pub fn in_block(
    body: &[Stmt],
    alloc: Global,
    numbers: &Numbers,
    scope: &mut Scope,
    noted: &mut Vec<usize>,
) -> Result<Option<FirFault>, MemoryOut>
    ensures { IfOk result (λ f. (modules : List PlacedName) (before : Before) → HasNumbers numbers.now modules → Walks modules scope.old before → Passes modules scope.old scope.new (block_mentions modules before (block_of (map stmt_of body.now))) (behind_block before (block_of (map stmt_of body.now))) f) }
{
    for statement in body {
        if let Some(fault) = in_statement(statement, alloc, numbers, scope, noted)? {
            return Ok(Some(fault));
        }
    }
    Ok(None)
}

#[cycle(statements)]
fn in_statement(
    statement: &Stmt,
    alloc: Global,
    numbers: &Numbers,
    scope: &mut Scope,
    noted: &mut Vec<usize>,
) -> Result<Option<FirFault>, MemoryOut>
    ensures { IfOk result (λ f. (modules : List PlacedName) (before : Before) → HasNumbers numbers.now modules → Walks modules scope.old before → Passes modules scope.old scope.new (mentions modules before (stmt_of statement.now)) (behind before (stmt_of statement.now)) f) }
{
    match statement {
        Stmt::Wire(_, ident, _, ty) => in_typed(alloc, scope, ident, Component::Wire, ty),
        Stmt::Reg(_, register) => in_register(alloc, scope, noted, register),
        Stmt::Node(_, ident, value) => in_node(alloc, scope, noted, ident, value),
        Stmt::Inst(_, ident, of) => in_instance(alloc, numbers, scope, ident, of),
        Stmt::Mem(_, memory) => in_memory_statement(alloc, scope, memory),
        Stmt::When(_, when) => in_when(when, alloc, numbers, scope, noted),
        Stmt::Connect(_, sink, source) => in_connect(alloc, scope, noted, sink, source),
        Stmt::PartialConnect(_, sink, source) => in_connect(alloc, scope, noted, sink, source),
        Stmt::Invalid(_, sink) => in_reference(sink, alloc, scope, noted),
        Stmt::Skip(_) => Ok(None),
    }
}

/// The condition, and then the blocks: what they declare is not visible behind them.
#[cycle(statements)]
fn in_when(
    when: &When,
    alloc: Global,
    numbers: &Numbers,
    scope: &mut Scope,
    noted: &mut Vec<usize>,
) -> Result<Option<FirFault>, MemoryOut>
    ensures { IfOk result (λ f. (modules : List PlacedName) (before : Before) (place : Place) → HasNumbers numbers.now modules → Walks modules scope.old before → Passes modules scope.old scope.new (mentions modules before (when_view when.now place)) (behind before (when_view when.now place)) f) }
{
    if let Some(fault) = in_expression(&when.condition, alloc, scope, noted)? {
        return Ok(Some(fault));
    }
    scope.open()?;
    if let Some(fault) = in_block(&when.then_block, alloc, numbers, scope, noted)? {
        return Ok(Some(fault));
    }
    scope.close();
    scope.open()?;
    if let Some(fault) = in_block(&when.else_block, alloc, numbers, scope, noted)? {
        return Ok(Some(fault));
    }
    scope.close();
    Ok(None)
}

/// Declares a component that is not declared yet.
fn declare(
    alloc: Global,
    scope: &mut Scope,
    ident: &Ident,
    component: Component,
) -> Result<Option<FirFault>, MemoryOut>
    ensures { IfOk result (λ f. (modules : List PlacedName) (before : Before) (c : meant.Component) → Walks modules scope.old before → component ≡ component_of modules c → Passes modules scope.old scope.new (declares (names_declared before) (named_of ident.now) ∷ []) (with_declaration before (named_of ident.now) c) f) }
{
    if let Some(fault) = scope.repeated(alloc, ident)? {
        return Ok(Some(fault));
    }
    scope.declare(alloc, ident, component)?;
    Ok(None)
}

/// A port or a wire: its name, and then its type.
pub fn in_typed(
    alloc: Global,
    scope: &mut Scope,
    ident: &Ident,
    component: Component,
    ty: &Ty,
) -> Result<Option<FirFault>, MemoryOut>
    ensures { IfOk result (λ f. (modules : List PlacedName) (before : Before) (c : meant.Component) → Walks modules scope.old before → component ≡ component_of modules c → Passes modules scope.old scope.new (declares (names_declared before) (named_of ident.now) ∷ type_mentions (type_of ty.now)) (with_declaration before (named_of ident.now) c) f) }
{
    if let Some(fault) = declare(alloc, scope, ident, component)? {
        return Ok(Some(fault));
    }
    in_type(ty, alloc)
}

/// A register: its name, its type, its clock, and then its reset, in which it is visible.
fn in_register(
    alloc: Global,
    scope: &mut Scope,
    noted: &mut Vec<usize>,
    register: &Register,
) -> Result<Option<FirFault>, MemoryOut>
    ensures { IfOk result (λ f. (modules : List PlacedName) (before : Before) → Walks modules scope.old before → Passes modules scope.old scope.new (register_mentions before (named_of register.now.ident) (type_of register.now.ty) (expr_of register.now.clock) (option_map reset_of register.now.reset)) (with_declaration before (named_of register.now.ident) (meant.register (type_of register.now.ty))) f) }
{
    if let Some(fault) = scope.repeated(alloc, &register.ident)? {
        return Ok(Some(fault));
    }
    if let Some(fault) = in_type(&register.ty, alloc)? {
        return Ok(Some(fault));
    }
    if let Some(fault) = in_expression(&register.clock, alloc, scope, noted)? {
        return Ok(Some(fault));
    }
    scope.declare(alloc, &register.ident, Component::Register)?;
    in_reset(alloc, scope, noted, &register.reset)
}

fn in_reset(
    alloc: Global,
    scope: &Scope,
    noted: &mut Vec<usize>,
    reset: &Option<RegisterReset>,
) -> Result<Option<FirFault>, MemoryOut>
    ensures { IfOk result (λ f. (visible : Declarations) → Sees scope.now visible → option_map fault_of f ≡ first_of (faults_in (reset_mentions visible (option_map reset_of reset.now)))) }
{
    let Some(reset) = reset else {
        return Ok(None);
    };
    if let Some(fault) = in_expression(&reset.condition, alloc, scope, noted)? {
        return Ok(Some(fault));
    }
    in_expression(&reset.init, alloc, scope, noted)
}

/// A node, which is not visible in its own expression.
fn in_node(
    alloc: Global,
    scope: &mut Scope,
    noted: &mut Vec<usize>,
    ident: &Ident,
    value: &Expr,
) -> Result<Option<FirFault>, MemoryOut>
    ensures { IfOk result (λ f. (modules : List PlacedName) (before : Before) → Walks modules scope.old before → Passes modules scope.old scope.new (declares (names_declared before) (named_of ident.now) ∷ expression_mentions before.visible (expr_of value.now)) (with_declaration before (named_of ident.now) (meant.node (expr_of value.now))) f) }
{
    if let Some(fault) = scope.repeated(alloc, ident)? {
        return Ok(Some(fault));
    }
    if let Some(fault) = in_expression(value, alloc, scope, noted)? {
        return Ok(Some(fault));
    }
    scope.declare(alloc, ident, Component::Node)?;
    Ok(None)
}

/// An instance: its name, and then the module, which may stand anywhere in the circuit.
fn in_instance(
    alloc: Global,
    numbers: &Numbers,
    scope: &mut Scope,
    ident: &Ident,
    of: &Ident,
) -> Result<Option<FirFault>, MemoryOut>
    ensures { IfOk result (λ f. (modules : List PlacedName) (before : Before) → HasNumbers numbers.now modules → Walks modules scope.old before → Passes modules scope.old scope.new (declares (names_declared before) (named_of ident.now) ∷ instantiates modules (named_of of.now) ∷ []) (with_declaration before (named_of ident.now) (meant.instance of.now.name)) f) }
{
    if let Some(fault) = scope.repeated(alloc, ident)? {
        return Ok(Some(fault));
    }
    match numbers.get(&of.name) {
        Some(number) => {
            scope.declare(alloc, ident, Component::Instance(*number))?;
            Ok(None)
        }
        None => Ok(Some(unknown(alloc, of.place, &of.name)?)),
    }
}

/// A memory: its name, and then its fields.
fn in_memory_statement(
    alloc: Global,
    scope: &mut Scope,
    memory: &Memory,
) -> Result<Option<FirFault>, MemoryOut>
    ensures { IfOk result (λ f. (modules : List PlacedName) (before : Before) → Walks modules scope.old before → Passes modules scope.old scope.new (declares (names_declared before) (named_of memory.now.ident) ∷ memory_mentions [] (map memory_part_of memory.now.fields.items)) (with_declaration before (named_of memory.now.ident) (meant.memory (map memory_part_of memory.now.fields.items))) f) }
{
    if let Some(fault) = declare(alloc, scope, &memory.ident, Component::Memory)? {
        return Ok(Some(fault));
    }
    in_memory(alloc, &memory.fields)
}

/// A connect: its sink, and then its source.
fn in_connect(
    alloc: Global,
    scope: &Scope,
    noted: &mut Vec<usize>,
    sink: &Reference,
    source: &Expr,
) -> Result<Option<FirFault>, MemoryOut>
    ensures { IfOk result (λ f. (visible : Declarations) → Sees scope.now visible → option_map fault_of f ≡ first_of (faults_in (sink_mentions visible (sink_of sink.now) ++ expression_mentions visible (expr_of source.now)))) }
{
    if let Some(fault) = in_reference(sink, alloc, scope, noted)? {
        return Ok(Some(fault));
    }
    in_expression(source, alloc, scope, noted)
}
