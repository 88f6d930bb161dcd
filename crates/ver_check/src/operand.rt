//! Operands (IEEE 1364-2005, 5.1.14, 5.2), each judged in one walk.

ghost use Rattle.std.specs.Prelude.{◌≡◌, ◌+◌, ◌-◌, ◌*◌, ℕ, Option, Some, None, IfOk, drop, nat_lt, option_map, if◌then◌else◌};
ghost use Rattle.ver_ast.specs.Atoms.{atoms_of, net, part_select};
ghost use Rattle.ver_ast.specs.AtomForms.{constant_number};
ghost use Rattle.ver_check.specs.Scopes.{Scope as Declarations};
ghost use Rattle.ver_places.specs.Places.{place_at};
ghost use Rattle.ver_check.specs.OperandFaults.{is_constant_fit, is_narrow, is_within, own_faults, sum_of, unfit_faults, width_faults};
ghost use Rattle.ver_check.specs.working.Findings.{IsFirst};
ghost use Rattle.ver_check.specs.working.Known.{Knows};
ghost use Rattle.ver_check.specs.working.Judged.{IsBehind, IsBeside, IsJudged, IsName, IsNamed, IsNeeded, IsOver, capped};

use crate::findings::{first, undeclared};
use crate::scope::Scope;
use fir_base::{MemoryOut, Name};
use fir_bits::mask;
use std::alloc::Global;
use ver_ast::{Atom, AtomForm, Constant, VPlace};
use ver_fault::VerFault;
use ver_places::{behind, place_at};

/// What stands for every width past 128 bits.
pub const WIDE: u32 = 129;

/// An operand that was judged.
#[derive(Drop)]
pub struct Judged<'a> {
    /// How many bits it has, with 129 for more than 128; none where one of its names has none.
    pub bits: Option<u32>,
    /// The places behind its own.
    pub next: &'a [VPlace],
    /// The first of its faults.
    pub fault: Option<VerFault>,
}

/// The operand that has the first of these places, where so many bits are needed, or any.
#[cycle(atoms)]
pub fn judge<'a>(
    alloc: Global,
    scope: &Scope,
    places: &'a [VPlace],
    needed: Option<u32>,
    atom: &Atom,
) -> Result<Judged<'a>, MemoryOut>
    ensures { IfOk result (λ j. (ds : Declarations) → Knows scope.now ds → IsNeeded needed → IsJudged ds needed atom.now places.now j) }
{
    let place = place_at(places, 0);
    match &atom.form {
        AtomForm::Net(name) => {
            let next = behind(places, 1);
            named(alloc, scope, place, next, needed, name)
        }
        AtomForm::Constant(constant) => {
            let next = behind(places, 1);
            Ok(constant_judged(*constant, place, next, needed))
        }
        AtomForm::BitSelect(name, index) => {
            let next = behind(places, 3);
            selected(alloc, scope, place, next, needed, name, *index, *index)
        }
        AtomForm::PartSelect(name, high, low) => {
            let next = behind(places, 4);
            selected(alloc, scope, place, next, needed, name, *high, *low)
        }
        AtomForm::Concat(first, rest) => {
            let first = judge(alloc, scope, behind(places, 1), None, first)?;
            let parts = judge_rest(alloc, scope, first, rest.as_slice())?;
            Ok(over(needed, place, parts))
        }
        AtomForm::Repeat(count, copied) => {
            let copied = judge(alloc, scope, behind(places, 3), None, copied)?;
            Ok(over(needed, place, repeated(*count, copied)))
        }
    }
}

/// The operands behind others of a concatenation, with these.
#[cycle(atoms)]
fn judge_rest<'a>(
    alloc: Global,
    scope: &Scope,
    before: Judged<'a>,
    atoms: &[Atom],
) -> Result<Judged<'a>, MemoryOut>
    ensures { IfOk result (λ j. (ds : Declarations) → Knows scope.now ds → IsBehind ds before.entry (atoms_of atoms.now) j) }
{
    let mut all = before;
    for atom in atoms {
        let next = judge(alloc, scope, all.next, None, atom)?;
        all = beside(all, next);
    }
    Ok(all)
}

/// Two parts of a concatenation beside each other.
fn beside<'a>(one: Judged<'a>, two: Judged<'a>) -> Judged<'a>
    ensures { IsBeside one.entry two.entry result }
{
    Judged {
        bits: sum(one.bits, two.bits),
        next: two.next,
        fault: first(one.fault, two.fault),
    }
}

/// A concatenation with these parts, at its place.
fn over<'a>(needed: Option<u32>, place: VPlace, parts: Judged<'a>) -> Judged<'a>
    ensures { IsNeeded needed → IsOver needed place parts.entry result }
{
    let Judged { bits, next, fault } = parts;
    let fits = match bits {
        Some(width) => is_narrow(width),
        None => true,
    };
    Judged {
        bits,
        next,
        fault: first(own(needed, bits, fits, place), fault),
    }
}

/// So many copies of an operand.
fn repeated<'a>(count: u32, copied: Judged<'a>) -> Judged<'a>
    ensures bits { (all : Option ℕ) → copied.entry.bits ≡ capped all → result.bits ≡ capped (option_map (λ w. count * w) all) }
    ensures next { result.next.now ≡ copied.entry.next.now }
    ensures fault { result.fault ≡ copied.entry.fault }
{
    let Judged { bits, next, fault } = copied;
    Judged {
        bits: copies(count, bits),
        next,
        fault,
    }
}

fn constant_judged<'a>(
    constant: Constant,
    place: VPlace,
    next: &'a [VPlace],
    needed: Option<u32>,
) -> Judged<'a>
    ensures bits { result.bits ≡ capped (Some constant.width) }
    ensures next { result.next.now ≡ next.now }
    ensures fault { IsNeeded needed → IsFirst result.fault (own_faults needed (Some constant.width) (is_constant_fit constant.width (constant_number constant)) place) }
{
    let bits = Some(constant.width.min(WIDE));
    Judged {
        bits,
        next,
        fault: own(needed, bits, is_fit(constant), place),
    }
}

/// A whole net.
fn named<'a>(
    alloc: Global,
    scope: &Scope,
    place: VPlace,
    next: &'a [VPlace],
    needed: Option<u32>,
    name: &Name,
) -> Result<Judged<'a>, MemoryOut>
    ensures judged { IfOk result (λ j. (ds : Declarations) → Knows scope.now ds → IsNeeded needed → IsName ds needed (net name.now) name.now place j) }
    ensures next { IfOk result (λ j. j.next.now ≡ next.now) }
{
    match net_bits(alloc, scope, place, name)? {
        Ok(width) => {
            let bits = Some(width.min(WIDE));
            let fault = own(needed, bits, true, place);
            Ok(Judged { bits, next, fault })
        }
        Err(fault) => Ok(Judged {
            bits: None,
            next,
            fault: Some(fault),
        }),
    }
}

/// The bits of a net from one down to another.
fn selected<'a>(
    alloc: Global,
    scope: &Scope,
    place: VPlace,
    next: &'a [VPlace],
    needed: Option<u32>,
    name: &Name,
    high: u32,
    low: u32,
) -> Result<Judged<'a>, MemoryOut>
    ensures judged { IfOk result (λ j. (ds : Declarations) → Knows scope.now ds → IsNeeded needed → IsName ds needed (part_select name.now high low) name.now place j) }
    ensures next { IfOk result (λ j. j.next.now ≡ next.now) }
{
    match net_bits(alloc, scope, place, name)? {
        Ok(width) => {
            let bits = part_bits(high, low);
            let fault = own(needed, bits, is_within(width, high, low), place);
            Ok(Judged { bits, next, fault })
        }
        Err(fault) => Ok(Judged {
            bits: None,
            next,
            fault: Some(fault),
        }),
    }
}

/// How many bits stand from one down to another; none from the lower one up.
fn part_bits(high: u32, low: u32) -> Option<u32>
    ensures { result ≡ capped (if nat_lt high low then None else Some (high + 1 - low)) }
{
    if high < low {
        None
    } else {
        Some((high - low).min(WIDE - 1) + 1)
    }
}

/// Whether bits from one down to another are within a net of that width, which has a range.
fn is_within(width: u32, high: u32, low: u32) -> bool
    ensures { result ≡ is_within (Some width) high low }
{
    1 < width && low <= high && high < width
}

/// The width of the net of that name, or the fault of the name.
fn net_bits(
    alloc: Global,
    scope: &Scope,
    place: VPlace,
    name: &Name,
) -> Result<Result<u32, VerFault>, MemoryOut>
    ensures { IfOk result (λ r. (ds : Declarations) → Knows scope.now ds → IsNamed ds name.now place r) }
{
    match scope.find(name) {
        None => Ok(Err(undeclared(alloc, place, name)?)),
        Some(entry) => match entry.kind.bits() {
            Some(width) => Ok(Ok(width)),
            None => Ok(Err(VerFault::Kind { place })),
        },
    }
}

/// What an operand shows at its first token: another width than is needed, or else that it is wrong itself.
pub fn own(needed: Option<u32>, bits: Option<u32>, fits: bool, place: VPlace) -> Option<VerFault>
    ensures { (all : Option ℕ) → bits ≡ capped all → IsNeeded needed → IsFirst result (own_faults needed all fits place) }
{
    first(unequal(needed, bits, place), unfit(fits, place))
}

/// What has so many bits stands where so many are needed.
pub fn unequal(needed: Option<u32>, bits: Option<u32>, place: VPlace) -> Option<VerFault>
    ensures { (all : Option ℕ) → bits ≡ capped all → IsNeeded needed → IsFirst result (width_faults needed all place) }
{
    match (needed, bits) {
        (Some(needed), Some(found)) if needed != found => {
            if found < WIDE {
                Some(VerFault::Width {
                    place,
                    needed,
                    found,
                })
            } else {
                Some(VerFault::Kind { place })
            }
        }
        _ => None,
    }
}

fn unfit(fits: bool, place: VPlace) -> Option<VerFault>
    ensures { IsFirst result (unfit_faults fits place) }
{
    if fits {
        None
    } else {
        Some(VerFault::Kind { place })
    }
}

/// Whether a width is one that nets can have: from 1 to 128 bits.
pub fn is_narrow(width: u32) -> bool
    ensures { result ≡ is_narrow width }
{
    0 < width && width < WIDE
}

/// Whether a constant has a width that nets can have, and its number fits it.
pub fn is_fit(constant: Constant) -> bool
    ensures { result ≡ is_constant_fit constant.width (constant_number constant) }
{
    if !is_narrow(constant.width) {
        return false;
    }
    match constant.number {
        Some(number) => number <= mask(constant.width),
        None => false,
    }
}

fn sum(one: Option<u32>, two: Option<u32>) -> Option<u32>
    ensures { (a b : Option ℕ) → one ≡ capped a → two ≡ capped b → result ≡ capped (sum_of a b) }
{
    match (one, two) {
        (Some(one), Some(two)) => Some((one.min(WIDE) + two.min(WIDE)).min(WIDE)),
        _ => None,
    }
}

fn copies(count: u32, bits: Option<u32>) -> Option<u32>
    ensures { (all : Option ℕ) → bits ≡ capped all → result ≡ capped (option_map (λ w. count * w) all) }
{
    match bits {
        Some(width) => Some((u64::from(count) * u64::from(width)).min(u64::from(WIDE)) as u32),
        None => None,
    }
}
