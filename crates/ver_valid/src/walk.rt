//! The ports and the items, in the order of the text.

ghost use Rattle.std.specs.Prelude.{◌≡◌, ◌≤◌, ◌↔◌, ℕ, List, [], ◌∷◌, ◌++◌, IsTrue};
ghost use Rattle.std.specs.List.{AllByRecursion};
ghost use Rattle.fir_base.specs.Lists.{In};
ghost use Rattle.ver_ast.specs.declared.tree.Verilog.{Verilog};
ghost use Rattle.ver_ast.specs.declared.tree.Item.TheVariants as item_form;
ghost use Rattle.ver_valid.specs.working.Judgement.{Judges};
ghost use Rattle.ver_valid.specs.working.Declarations.{Entry, IsNarrow, IsNarrowKind, entry_names, port_kind};
ghost use Rattle.ver_valid.specs.working.Scopes.{Tells, TellsOf};
ghost use Rattle.ver_valid.specs.working.Driven.{Drives};
ghost use Rattle.ver_valid.specs.working.Walks.{AreNextItems, AreNextPorts, IsItemDriven, IsNextAssign, IsNextItem, IsNextPort, IsOutputDriven, IsPortDriven, Reflects, Steps, with_items, with_ports};

use crate::block::{plain_block, resetting_block, writing_block};
use crate::declared::Declared;
use crate::driven::Driven;
use crate::misfit::Misfit;
use crate::operand::is_narrow;
use crate::scope::{Scope, Target};
use crate::side::{clock_side, side};
use fir_base::{Direction, Name, Refused};
use std::alloc::Global;
use ver_ast::{Always, Array, Assign, Item, Net, Port, Resetting, Writing};

/// How many words all arrays together can have.
const WORDS: u64 = 4194304;

/// What is declared and driven so far, and how many more words arrays can have.
pub struct Walk {
    scope: Scope,
    assigned: Driven,
    written: Driven,
    room: u64,
}

// Not derived, so that a drop is a call, which is proved once.
impl Drop for Walk {
    fn drop(self) {
        let Walk {
            scope: _,
            assigned: _,
            written: _,
            room: _,
        } = self;
    }
}

impl Walk {
    /// Nothing is declared.
    pub fn new(alloc: Global) -> Walk
        ensures { (v : Verilog) → v.ports ≡ [] → v.items ≡ [] → Reflects result v }
    {
        Walk {
            scope: Scope::new(alloc),
            assigned: Driven::new(alloc),
            written: Driven::new(alloc),
            room: WORDS,
        }
    }

    /// Declares the ports.
    pub fn take_ports(&mut self, alloc: Global, ports: &[Port]) -> Result<(), Refused<Misfit>>
        ensures { (v : Verilog) → v.items ≡ [] → Reflects self.old v → Steps result (AreNextPorts v ports.now) (Reflects self.new (with_ports v ports.now)) }
    {
        for port in ports {
            self.take_port(alloc, port)?;
        }
        Ok(())
    }

    fn take_port(&mut self, alloc: Global, port: &Port) -> Result<(), Refused<Misfit>>
        ensures { (v : Verilog) → v.items ≡ [] → Reflects self.old v → Steps result (IsNextPort v port.now) (Reflects self.new (with_ports v (port.now ∷ []))) }
    {
        if !is_port_narrow(port) {
            return Err(Refused::Fault(Misfit::Unfit));
        }
        self.scope.declare(alloc, &port.name, port_declared(port))
    }

    /// Judges the items, each behind those before it.
    pub fn take_items(&mut self, alloc: Global, items: &[Item]) -> Result<(), Refused<Misfit>>
        ensures { (v : Verilog) → Reflects self.old v → Steps result (AreNextItems v items.now) (Reflects self.new (with_items v items.now)) }
    {
        for item in items {
            self.take_item(alloc, item)?;
        }
        Ok(())
    }

    fn take_item(&mut self, alloc: Global, item: &Item) -> Result<(), Refused<Misfit>>
        ensures { (v : Verilog) → Reflects self.old v → Steps result (IsNextItem v item.now) (Reflects self.new (with_items v (item.now ∷ []))) }
    {
        match item {
            Item::Wire(net) => self.take_wire(alloc, net),
            Item::Reg(net) => self.take_register(alloc, net),
            Item::Array(array) => self.take_array(alloc, array),
            Item::Assign(assign) => self.take_assign(alloc, assign),
            Item::Always(block) => self.take_plain(alloc, block),
            Item::Resetting(block) => self.take_resetting(alloc, block),
            Item::Writing(block) => self.take_writing(alloc, block),
        }
    }

    fn take_wire(&mut self, alloc: Global, net: &Net) -> Result<(), Refused<Misfit>>
        ensures { (v : Verilog) → Reflects self.old v → Steps result (IsNextItem v (item_form.Wire net.now)) (Reflects self.new (with_items v (item_form.Wire net.now ∷ []))) }
    {
        declare(
            alloc,
            &mut self.scope,
            &net.name,
            net.width,
            Declared::Wire(net.width),
        )
    }

    fn take_register(&mut self, alloc: Global, net: &Net) -> Result<(), Refused<Misfit>>
        ensures { (v : Verilog) → Reflects self.old v → Steps result (IsNextItem v (item_form.Reg net.now)) (Reflects self.new (with_items v (item_form.Reg net.now ∷ []))) }
    {
        let declared = Declared::Register(net.width);
        declare(alloc, &mut self.scope, &net.name, net.width, declared)
    }

    fn take_array(&mut self, alloc: Global, array: &Array) -> Result<(), Refused<Misfit>>
        ensures { (v : Verilog) → Reflects self.old v → Steps result (IsNextItem v (item_form.Array array.now)) (Reflects self.new (with_items v (item_form.Array array.now ∷ []))) }
    {
        let last = u64::from(array.last);
        if self.room <= last {
            return Err(Refused::Fault(Misfit::Unfit));
        }
        self.room -= last + 1;
        let declared = Declared::Array(array.width, array.last);
        declare(alloc, &mut self.scope, &array.name, array.width, declared)
    }

    fn take_assign(&mut self, alloc: Global, assign: &Assign) -> Result<(), Refused<Misfit>>
        ensures { (v : Verilog) → Reflects self.old v → Steps result (IsNextItem v (item_form.Assign assign.now)) (Reflects self.new (with_items v (item_form.Assign assign.now ∷ []))) }
    {
        judge_assign(&self.scope, assign)?;
        self.assigned.drive(alloc, &assign.target)
    }

    fn take_plain(&mut self, alloc: Global, block: &Always) -> Result<(), Refused<Misfit>>
        ensures { (v : Verilog) → Reflects self.old v → Steps result (IsNextItem v (item_form.Always block.now)) (Reflects self.new (with_items v (item_form.Always block.now ∷ []))) }
    {
        plain_block(&self.scope, block)?;
        self.written.drive(alloc, &block.target)
    }

    fn take_resetting(&mut self, alloc: Global, block: &Resetting) -> Result<(), Refused<Misfit>>
        ensures { (v : Verilog) → Reflects self.old v → Steps result (IsNextItem v (item_form.Resetting block.now)) (Reflects self.new (with_items v (item_form.Resetting block.now ∷ []))) }
    {
        resetting_block(&self.scope, block)?;
        self.written.drive(alloc, &block.target)
    }

    fn take_writing(&mut self, alloc: Global, block: &Writing) -> Result<(), Refused<Misfit>>
        ensures { (v : Verilog) → Reflects self.old v → Steps result (IsNextItem v (item_form.Writing block.now)) (Reflects self.new (with_items v (item_form.Writing block.now ∷ []))) }
    {
        writing_block(&self.scope, block)?;
        match block.writes.as_slice().first() {
            None => Ok(()),
            Some(first) => self.written.drive(alloc, &first.array),
        }
    }

    /// Each output and each wire is driven.
    pub fn all_driven(&self, ports: &[Port], items: &[Item]) -> Result<(), Refused<Misfit>>
        ensures { (ns : List (List ℕ)) → Drives self.now.assigned ns → Judges result (AllByRecursion (IsPortDriven ns) ports.now × AllByRecursion (IsItemDriven ns) items.now) }
    {
        ports_driven(&self.assigned, ports)?;
        items_driven(&self.assigned, items)
    }
}

/// Declares a name of so many bits.
fn declare(
    alloc: Global,
    scope: &mut Scope,
    name: &Name,
    width: u32,
    declared: Declared,
) -> Result<(), Refused<Misfit>>
    ensures { (es : List Entry) → TellsOf scope.old es → (IsNarrow width → IsNarrowKind declared) → Steps result ((In (entry_names es) name.now → ⊥) × IsNarrow width) (TellsOf scope.new (es ++ (name.now, declared) ∷ [])) }
{
    if !is_narrow(width) {
        return Err(Refused::Fault(Misfit::Unfit));
    }
    scope.declare(alloc, name, declared)
}

fn judge_assign(scope: &Scope, assign: &Assign) -> Result<(), Refused<Misfit>>
    ensures { (v : Verilog) → Tells scope.now v → Judges result (IsNextAssign v assign.now) }
{
    match scope.target(&assign.target)? {
        Target::Clock => clock_side(scope, &assign.rhs),
        Target::Net(width) => side(scope, width, &assign.rhs),
    }
}

fn ports_driven(assigned: &Driven, ports: &[Port]) -> Result<(), Refused<Misfit>>
    ensures { (ns : List (List ℕ)) → Drives assigned.now ns → Judges result (AllByRecursion (IsPortDriven ns) ports.now) }
{
    for port in ports {
        output_driven(assigned, port.direction, &port.name)?;
    }
    Ok(())
}

fn output_driven(
    assigned: &Driven,
    direction: Direction,
    name: &Name,
) -> Result<(), Refused<Misfit>>
    ensures { (ns : List (List ℕ)) → Drives assigned.now ns → Judges result (IsOutputDriven ns direction name.now) }
{
    match direction {
        Direction::Input => Ok(()),
        Direction::Output => is_driven(assigned, name),
    }
}

fn items_driven(assigned: &Driven, items: &[Item]) -> Result<(), Refused<Misfit>>
    ensures { (ns : List (List ℕ)) → Drives assigned.now ns → Judges result (AllByRecursion (IsItemDriven ns) items.now) }
{
    for item in items {
        item_driven(assigned, item)?;
    }
    Ok(())
}

fn item_driven(assigned: &Driven, item: &Item) -> Result<(), Refused<Misfit>>
    ensures { (ns : List (List ℕ)) → Drives assigned.now ns → Judges result (IsItemDriven ns item.now) }
{
    match item {
        Item::Wire(net) => is_driven(assigned, &net.name),
        _ => Ok(()),
    }
}

fn is_driven(assigned: &Driven, name: &Name) -> Result<(), Refused<Misfit>>
    ensures { (ns : List (List ℕ)) → Drives assigned.now ns → Judges result (In ns name.now) }
{
    if assigned.has(name) {
        Ok(())
    } else {
        Err(Refused::Fault(Misfit::Undriven))
    }
}

/// Whether a port has a width that it can have: a clock has one bit.
fn is_port_narrow(port: &Port) -> bool
    ensures { IsTrue result ↔ (IsNarrowKind (port_kind port.now) × (IsTrue port.now.is_clock → port.now.width ≡ 1)) }
{
    if port.is_clock {
        port.width == 1
    } else {
        is_narrow(port.width)
    }
}

fn port_declared(port: &Port) -> Declared
    ensures { result ≡ port_kind port.now }
{
    match (port.is_clock, port.direction) {
        (true, Direction::Input) => Declared::ClockInput,
        (true, Direction::Output) => Declared::ClockOutput,
        (false, Direction::Input) => Declared::Input(port.width),
        (false, Direction::Output) => Declared::Output(port.width),
    }
}
