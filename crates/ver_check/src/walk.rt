//! The ports and the items, in the order of the text.

ghost use Rattle.std.specs.Prelude.{◌≡◌, ◌≤◌, ◌∷◌, ◌++◌, List, None, [], IsTrue};
ghost use Rattle.ver_ast.specs.declared.tree.Item.TheVariants as item_form;
ghost use Rattle.ver_check.specs.Scopes.{declaration_of};
ghost use Rattle.ver_check.specs.OperandFaults.{is_narrow};
ghost use Rattle.ver_check.specs.FaultForms.{twice_fault};
ghost use Rattle.ver_check.specs.SideFaults.{truth_faults};
ghost use Rattle.ver_check.specs.ItemFaults.{Before, Driver, array_faults, assign_faults, clock_assign_faults, declared_faults, driver_of, item_faults, named_faults, net_assign_faults, no_range_faults, port_faults, range_faults, writes_faults, writing_faults};
ghost use Rattle.ver_places.specs.Places.{port_places};
ghost use Rattle.ver_check.specs.TreeFaults.{behind_all, behind_items, behind_net, behind_ports, behind_writes, misfits, items_faults, kind_by, nothing_before, ports_faults, reset_place, undriven_of, with_declared, with_written};
ghost use Rattle.ver_check.specs.TreeFaults.{behind_item as standing_behind_item, behind_port as standing_behind_port};
ghost use Rattle.ver_check.specs.working.Findings.{Finds};
ghost use Rattle.ver_check.specs.working.Known.{Drives, IsNarrowKind, Knows, declared};
ghost use Rattle.ver_check.specs.working.Blocks.{HasScope};
ghost use Rattle.ver_check.specs.working.Walks.{Stands, Steps, due_in, missing_faults};

use crate::block::{Beside, plain_block, resetting_block, undriven, writing_block};
use crate::drivers::Drivers;
use crate::findings::{twice, undeclared};
use crate::kind::Kind;
use crate::operand::is_narrow;
use crate::scope::{Entry, Scope};
use crate::side::{clock_side, side, truth};
use fir_base::{Direction, Name, Refused};
use std::alloc::Global;
use ver_ast::{Array, Assign, Item, Port, Resetting, VPlace, Verilog, Write, Writing};
use ver_fault::VerFault;
use ver_places::{
    array_places, behind, behind_item, behind_port, behind_ports, place_at, range_places,
};

/// How many words all arrays together can have.
const WORDS: u64 = 4194304;

/// A name that an assign has to drive, and its place in its declaration.
#[derive(Clone, Copy)]
pub struct Due<'a> {
    pub name: &'a Name,
    pub place: VPlace,
}

/// What stands before an item: what is declared, what assigns and what blocks drive, how many words all arrays have; and
/// what an assign has to drive, in the order of the text.
#[derive(Drop)]
pub struct Walk<'a> {
    scope: Scope,
    assigned: Drivers,
    written: Drivers,
    words: u64,
    due: Vec<Due<'a>>,
}

impl<'a> Walk<'a> {
    /// Nothing stands before.
    pub fn new(alloc: Global) -> Walk<'a>
        ensures { Stands result nothing_before }
    {
        Walk {
            scope: Scope::new(alloc),
            assigned: Drivers::new(alloc),
            written: Drivers::new(alloc),
            words: 0,
            due: Vec::new(alloc),
        }
    }

    /// Judges the ports and the items, which have these places.
    pub fn take_all(
        &mut self,
        alloc: Global,
        places: &[VPlace],
        v: &'a Verilog,
    ) -> Result<(), Refused<VerFault>>
        ensures { places.now ≡ port_places v.now → Stands self.old nothing_before → Steps result (misfits v.now) (Stands self.new (behind_all v.now)) }
    {
        let ports = v.ports.as_slice();
        self.take_ports(alloc, places, ports)?;
        self.take_items(alloc, behind_ports(places, ports), v.items.as_slice())
    }

    /// Judges the ports, which have the first of these places.
    pub fn take_ports(
        &mut self,
        alloc: Global,
        places: &[VPlace],
        ports: &'a [Port],
    ) -> Result<(), Refused<VerFault>>
        ensures { (before : Before) → Stands self.old before → Steps result (ports_faults before ports.now places.now) (Stands self.new (behind_ports before ports.now places.now)) }
    {
        let mut next = places;
        for port in ports {
            self.take_port(alloc, next, port)?;
            next = behind_port(next, port);
        }
        Ok(())
    }

    fn take_port(
        &mut self,
        alloc: Global,
        places: &[VPlace],
        port: &'a Port,
    ) -> Result<(), Refused<VerFault>>
        ensures { (before : Before) → Stands self.old before → Steps result (port_faults before port.now places.now) (Stands self.new (standing_behind_port before port.now places.now)) }
    {
        let words = if port.is_clock {
            no_range(port.width, place_at(places, 2))?;
            2
        } else {
            range(port.width, place_at(places, 2))?;
            1
        };
        let place = place_at(places, words + range_places(port.width));
        self.declare(
            alloc,
            &port.name,
            Entry {
                kind: port_kind(port),
                place,
            },
        )
    }

    /// Judges the items, which have the first of these places, each behind those before it.
    pub fn take_items(
        &mut self,
        alloc: Global,
        places: &[VPlace],
        items: &'a [Item],
    ) -> Result<(), Refused<VerFault>>
        ensures { (before : Before) → Stands self.old before → Steps result (items_faults before items.now places.now) (Stands self.new (behind_items before items.now places.now)) }
    {
        let mut next = places;
        for item in items {
            self.take_item(alloc, next, item)?;
            next = behind_item(next, item);
        }
        Ok(())
    }

    fn take_item(
        &mut self,
        alloc: Global,
        places: &[VPlace],
        item: &'a Item,
    ) -> Result<(), Refused<VerFault>>
        ensures { (before : Before) → Stands self.old before → Steps result (item_faults before item.now places.now) (Stands self.new (standing_behind_item before item.now places.now)) }
    {
        match item {
            Item::Wire(net) => {
                let declared = Kind::Wire(net.width);
                self.take_net(alloc, places, net.width, &net.name, declared)
            }
            Item::Reg(net) => {
                let declared = Kind::Register(net.width);
                self.take_net(alloc, places, net.width, &net.name, declared)
            }
            Item::Array(array) => self.take_array(alloc, places, array),
            Item::Assign(assign) => self.take_assign(alloc, places, assign),
            Item::Always(block) => {
                plain_block(self.beside(alloc), places, block)?;
                self.write(alloc, &block.target, place_at(places, 3))
            }
            Item::Resetting(block) => {
                resetting_block(self.beside(alloc), places, block)?;
                let place = reset_place(places, block);
                self.write(alloc, &block.target, place)
            }
            Item::Writing(block) => self.take_writing(alloc, places, block),
        }
    }

    /// A wire or a register.
    fn take_net(
        &mut self,
        alloc: Global,
        places: &[VPlace],
        width: u32,
        name: &'a Name,
        declared: Kind,
    ) -> Result<(), Refused<VerFault>>
        ensures { (before : Before) → Stands self.old before → (IsTrue (is_narrow width) → IsNarrowKind declared)
            → Steps result (named_faults before width name.now places.now) (Stands self.new (behind_net before declared width name.now places.now)) }
    {
        range(width, place_at(places, 2))?;
        let place = place_at(places, 1 + range_places(width));
        self.declare(
            alloc,
            name,
            Entry {
                kind: declared,
                place,
            },
        )
    }

    fn take_array(
        &mut self,
        alloc: Global,
        places: &[VPlace],
        array: &'a Array,
    ) -> Result<(), Refused<VerFault>>
        ensures { (before : Before) → Stands self.old before → Steps result (array_faults before array.now places.now) (Stands self.new (standing_behind_item before (item_form.Array array.now) places.now)) }
    {
        let declared = Kind::Array(array.width);
        self.take_net(alloc, places, array.width, &array.name, declared)?;
        let more = u64::from(array.last) + 1;
        if self.words > WORDS || more > WORDS - self.words {
            let place = place_at(places, 4 + range_places(array.width));
            return Err(Refused::Fault(VerFault::Kind { place }));
        }
        self.words += more;
        Ok(())
    }

    fn take_assign(
        &mut self,
        alloc: Global,
        places: &[VPlace],
        assign: &Assign,
    ) -> Result<(), Refused<VerFault>>
        ensures { (before : Before) → Stands self.old before → Steps result (assign_faults before assign.now places.now) (Stands self.new (standing_behind_item before (item_form.Assign assign.now) places.now)) }
    {
        judge_assign(alloc, &self.scope, &self.assigned, places, assign)?;
        self.assigned
            .drive(alloc, &assign.target, place_at(places, 1))?;
        Ok(())
    }

    fn take_writing(
        &mut self,
        alloc: Global,
        places: &[VPlace],
        block: &Writing,
    ) -> Result<(), Refused<VerFault>>
        ensures { (before : Before) → Stands self.old before → Steps result (writing_faults before block.now places.now) (Stands self.new (standing_behind_item before (item_form.Writing block.now) places.now)) }
    {
        writing_block(self.beside(alloc), places, block)?;
        self.note_writes(alloc, behind(places, 4), block.writes.as_slice())
    }

    /// Notes the array that a block writes, of writes without a fault that have the first of these places.
    fn note_writes(
        &mut self,
        alloc: Global,
        places: &[VPlace],
        writes: &[Write],
    ) -> Result<(), Refused<VerFault>>
        ensures { (before : Before) → Stands self.old before → writes_faults before writes.now places.now ≡ []
            → Steps result [] (Stands self.new (behind_writes before writes.now places.now)) }
    {
        match writes.first() {
            None => Ok(()),
            Some(first) => {
                let place = place_at(array_places(places, first), 0);
                self.write(alloc, &first.array, place)
            }
        }
    }

    /// Declares a name.
    fn declare(
        &mut self,
        alloc: Global,
        name: &'a Name,
        entry: Entry,
    ) -> Result<(), Refused<VerFault>>
        ensures { (before : Before) → Stands self.old before → IsNarrowKind entry.kind
            → Steps result (declared_faults entry.place name.now (declaration_of before.scope name.now)) (Stands self.new (with_declared before (declared name.now entry))) }
    {
        if let Some(first) = self.scope.find(name) {
            return Err(Refused::Fault(twice(alloc, entry.place, name, first.place)?));
        }
        self.scope.declare(alloc, name, entry)?;
        if entry.kind.is_driven() {
            let place = entry.place;
            self.due.push(Due { name, place })?;
        }
        Ok(())
    }

    /// Notes that a block writes a name that none wrote.
    fn write(&mut self, alloc: Global, name: &Name, place: VPlace) -> Result<(), Refused<VerFault>>
        ensures { (before : Before) → Stands self.old before → driver_of before.written name.now ≡ None → Steps result [] (Stands self.new (with_written before name.now place)) }
    {
        self.written.drive(alloc, name, place)?;
        Ok(())
    }

    /// The first name in the text that an assign has to drive, and none does.
    pub fn all_driven(&self, alloc: Global) -> Result<(), Refused<VerFault>>
        ensures { (before : Before) → Stands self.now before → Finds result (undriven_of before) }
    {
        for due in self.due.as_slice() {
            is_driven(alloc, &self.assigned, due)?;
        }
        Ok(())
    }

    fn beside(&self, alloc: Global) -> Beside<'_>
        ensures { (before : Before) → Stands self.now before → HasScope result before }
    {
        Beside {
            alloc,
            scope: &self.scope,
            written: &self.written,
        }
    }
}

/// The name has an assign.
fn is_driven(alloc: Global, assigned: &Drivers, due: &Due<'_>) -> Result<(), Refused<VerFault>>
    ensures { (ds : List Driver) → Drives assigned.now ds → Finds result (missing_faults ds (due_in due.now)) }
{
    match assigned.find(due.name) {
        Some(_) => Ok(()),
        None => Err(Refused::Fault(VerFault::Undriven {
            place: due.place,
            name: due.name.copy(alloc)?,
        })),
    }
}

/// The place of the register in an asynchronous block.
fn reset_place(places: &[VPlace], block: &Resetting) -> VPlace
    ensures { result ≡ reset_place block.now.edge places.now }
{
    match &block.edge {
        None => place_at(places, 5),
        Some(_) => place_at(places, 8),
    }
}

/// A range has from 2 to 128 bits; where none is written the width is 1.
fn range(width: u32, place: VPlace) -> Result<(), Refused<VerFault>>
    ensures { Finds result (range_faults width place) }
{
    if is_narrow(width) {
        Ok(())
    } else {
        Err(Refused::Fault(VerFault::Kind { place }))
    }
}

/// A clock has no range.
fn no_range(width: u32, place: VPlace) -> Result<(), Refused<VerFault>>
    ensures { Finds result (no_range_faults width place) }
{
    if width == 1 {
        Ok(())
    } else {
        Err(Refused::Fault(VerFault::Kind { place }))
    }
}

/// An assign, by what its target is declared as; an input has its driver outside.
fn judge_assign(
    alloc: Global,
    scope: &Scope,
    assigned: &Drivers,
    places: &[VPlace],
    assign: &Assign,
) -> Result<(), Refused<VerFault>>
    ensures { (before : Before) → Knows scope.now before.scope → Drives assigned.now before.assigned → Finds result (assign_faults before assign.now places.now) }
{
    let place = place_at(places, 1);
    let target = &assign.target;
    let Some(entry) = scope.find(target) else {
        return Err(Refused::Fault(undeclared(alloc, place, target)?));
    };
    match entry.kind {
        Kind::ClockInput => Err(Refused::Fault(twice(alloc, place, target, entry.place)?)),
        Kind::Input(width) => input_assign(alloc, place, width, entry.place, assign),
        Kind::Register(_) | Kind::Array(_) => Err(Refused::Fault(VerFault::Kind { place })),
        Kind::ClockOutput => clock_assign(alloc, scope, assigned, places, assign),
        Kind::Output(width) => net_assign(alloc, scope, assigned, places, width, assign),
        Kind::Wire(width) => net_assign(alloc, scope, assigned, places, width, assign),
    }
}

/// An assign of an input of that width, which has its driver outside, and its declaration at that place.
fn input_assign(
    alloc: Global,
    place: VPlace,
    width: u32,
    declared: VPlace,
    assign: &Assign,
) -> Result<(), Refused<VerFault>>
    ensures { Finds result (truth_faults width assign.now.rhs place ++ twice_fault place assign.now.target declared ∷ []) }
{
    truth(width, &assign.rhs, place)?;
    Err(Refused::Fault(twice(alloc, place, &assign.target, declared)?))
}

/// An assign of a clock output.
fn clock_assign(
    alloc: Global,
    scope: &Scope,
    assigned: &Drivers,
    places: &[VPlace],
    assign: &Assign,
) -> Result<(), Refused<VerFault>>
    ensures { (before : Before) → Knows scope.now before.scope → Drives assigned.now before.assigned → Finds result (clock_assign_faults before assign.now places.now) }
{
    undriven(alloc, assigned, place_at(places, 1), &assign.target)?;
    clock_side(alloc, scope, place_at(places, 2), &assign.rhs)
}

/// An assign of a net of that width.
fn net_assign(
    alloc: Global,
    scope: &Scope,
    assigned: &Drivers,
    places: &[VPlace],
    width: u32,
    assign: &Assign,
) -> Result<(), Refused<VerFault>>
    ensures { (before : Before) → Knows scope.now before.scope → Drives assigned.now before.assigned → width ≤ 128 → Finds result (net_assign_faults before width assign.now places.now) }
{
    truth(width, &assign.rhs, place_at(places, 1))?;
    undriven(alloc, assigned, place_at(places, 1), &assign.target)?;
    side(alloc, scope, behind(places, 2), width, &assign.rhs)
}

fn port_kind(port: &Port) -> Kind
    ensures { result ≡ kind_by port.now.is_clock port.now.direction port.now.width }
{
    match (port.is_clock, port.direction) {
        (true, Direction::Input) => Kind::ClockInput,
        (true, Direction::Output) => Kind::ClockOutput,
        (false, Direction::Input) => Kind::Input(port.width),
        (false, Direction::Output) => Kind::Output(port.width),
    }
}
