//! What is wrong with the clock of a leaf of a module (E25; FIRRTL spec, "Clock Type", "Last Connect Semantics").

ghost use Rattle.std.specs.Prelude.{◌≡◌, ◌<◌, ℕ, IfOk, List, None, flat_map, length};
ghost use Rattle.std.specs.Bool.{Decides};
ghost use Rattle.std.specs.Option.{option_map};
ghost use Rattle.fir_bits.specs.declared.types.NumTy.{NumTy};
ghost use Rattle.fir_leaf.specs.working.ClockFaults.{clock_places, live_places};
ghost use Rattle.fir_leaf.specs.working.ModuleCircuits.{module_circuit};
ghost use Rattle.fir_leaf_circuit.specs.working.Seen.{HasView, leaf_seen, role_seen, type_seen, unnamed};
ghost use Rattle.fir_leaf_circuit.specs.declared.leaf.LeafType.TheVariants.{Clock};
ghost use Rattle.fir_meaning.specs.LeafTypes.{a_clock, number};
ghost use Rattle.fir_meaning.specs.working.Choices.{Live};
ghost use Rattle.fir_meaning.specs.working.LeafCircuits.{LeafCircuit};
ghost use Rattle.fir_meaning.specs.working.LeafModules.{LeafModule as Viewed, leaf_at};
ghost use Rattle.fir_meaning.specs.working.TermValues.{Holds};
ghost use Rattle.fir_net.specs.declared.node.Node.{Node};
ghost use Rattle.fir_connect.specs.working.NetRoles.{NetRole as RoleMeant};
ghost use Rattle.fir_connect.specs.working.NetTerms.{NetTerm};
ghost use Rattle.fir_merge.specs.working.NodeTerms.{IsBelow, ReadBefore, node_term, read_term, terms};
ghost use Rattle.fir_whens.specs.working.StandingRoles.{RoleStands};
ghost use Rattle.fir_flatten.specs.working.ClearClocks.{IsChosen, IsUnclearAs};
ghost use Rattle.fir_flatten.specs.working.ClockEvidence.{IsEvidenceOf, Tells, first_two, twice};
ghost use Rattle.fir_flatten.specs.working.LiveSites.{AreSitesOf};

use crate::index_places::{earlier, first_picking};
use crate::live_sites::{LiveSite, live_sites};
use fir_ast::Place;
use fir_base::MemoryOut;
use fir_leaf::Node as LeafNode;
use fir_leaf_circuit::{Leaf, LeafModule, LeafRole, LeafType};
use fir_net::{Node, Read};
use fir_whens::NetRole;
use std::alloc::Global;

/// The places of the first two statements that are live for a clock leaf; or twice that of the first index in the text
/// that picks the clock.
#[derive(Clone, Copy)]
pub struct Evidence {
    pub one: Place,
    pub other: Place,
}

/// Whether the clock of a leaf, or of a register, is given by more than one leaf or invalid.
pub fn is_unclear(nodes: &[Node], holds: LeafType, role: NetRole) -> bool
    ensures { (types : Holds) (r : RoleMeant) → ReadBefore 0 nodes.now → RoleStands types nodes.now role r → Decides result (IsUnclearAs (type_seen holds) r) }
{
    match holds {
        LeafType::Clock => is_given_unclear(nodes, role),
        LeafType::Number(_) => is_register_unclear(role),
    }
}

/// The same of a leaf that holds a clock.
fn is_given_unclear(nodes: &[Node], role: NetRole) -> bool
    ensures { (types : Holds) (r : RoleMeant) → ReadBefore 0 nodes.now → RoleStands types nodes.now role r → Decides result (IsUnclearAs a_clock r) }
{
    match role {
        NetRole::Driven(bound) | NetRole::Computed(bound) => is_choice(nodes, bound.read),
        _ => false,
    }
}

/// The same of one that holds a number.
fn is_register_unclear(role: NetRole) -> bool
    ensures { (types : Holds) (nodes : List Node) (u : NumTy) (r : RoleMeant) → ReadBefore 0 nodes → RoleStands types nodes role r → Decides result (IsUnclearAs (number u) r) }
{
    match role {
        NetRole::Register(clock, _, _) => matches!(clock.read, Read::Node(_)),
        _ => false,
    }
}

/// Whether what is read is no leaf and no literal.
fn is_choice(nodes: &[Node], read: Read) -> bool
    ensures { ReadBefore 0 nodes.now → IsBelow (length nodes.now) read → Decides result (IsChosen (read_term (terms nodes.now) read)) }
{
    let Read::Node(node) = read else {
        return false;
    };
    match nodes.get(node.number()) {
        Some(node) => is_computed(node),
        None => false,
    }
}

/// Whether a node is no literal.
fn is_computed(node: &Node) -> bool
    ensures { (known : List NetTerm) → Decides result (IsChosen (node_term known node.now)) }
{
    match node {
        Node::Literal(_) => false,
        Node::Operation(_) => true,
        Node::Mux(mux) => {
            // That there are three reads is known of what is taken apart.
            let [_condition, _first, _second] = mux.reads;
            true
        }
    }
}

/// What is told of such a leaf.
pub fn clock_evidence(
    alloc: Global,
    part: &LeafModule,
    number: usize,
) -> Result<Option<Evidence>, MemoryOut>
    ensures { IfOk result (λ e. (meant : Viewed) → HasView part.now meant → number < length meant.leaves → IsEvidenceOf (module_circuit meant) number e) }
{
    let Some(leaf) = part.leaves.get(number) else {
        return Ok(None);
    };
    match leaf.holds {
        LeafType::Clock => of_clock(alloc, part, number, leaf),
        LeafType::Number(_) => Ok(of_number(&part.nodes, leaf)),
    }
}

/// Of a leaf that holds a clock.
fn of_clock(
    alloc: Global,
    part: &LeafModule,
    number: usize,
    leaf: &Leaf,
) -> Result<Option<Evidence>, MemoryOut>
    ensures { IfOk result (λ e. (meant : Viewed) → HasView part.now meant → leaf_seen part.now.nodes.items leaf.now ≡ unnamed (leaf_at meant.leaves number) → leaf.now.holds ≡ Clock → IsEvidenceOf (module_circuit meant) number e) }
{
    match leaf.role {
        LeafRole::Sink => {
            let sites = live_sites(alloc, &part.nodes, &part.body, number, leaf.depth)?;
            Ok(of_sites(&sites))
        }
        LeafRole::Computed(node) | LeafRole::Register(node, _) => {
            Ok(of_index(first_picking(&part.nodes, node)))
        }
        _ => Ok(None),
    }
}

/// Of a leaf that holds a number, in a module with these nodes.
fn of_number(nodes: &[LeafNode], leaf: &Leaf) -> Option<Evidence>
    ensures { (c : LeafCircuit) (x : ℕ) (t : NumTy) → Tells (clock_places c x (number t) (role_seen nodes.now leaf.now.role)) None result }
{
    match leaf.role {
        LeafRole::Register(clock, _) => of_index(first_picking(nodes, clock)),
        _ => None,
    }
}

/// Of statements that are live, the last of the text first.
fn of_sites(sites: &[LiveSite]) -> Option<Evidence>
    ensures { (ls : List Live) → AreSitesOf ls sites.now → Tells (flat_map live_places ls) (first_two ls) result }
{
    let mut index = None;
    for site in sites {
        index = earlier(site.index, index);
    }
    match (index, sites) {
        (Some(_), _) => of_index(index),
        (None, [.., second, first]) => Some(Evidence {
            one: first.place,
            other: second.place,
        }),
        _ => None,
    }
}

fn of_index(index: Option<Place>) -> Option<Evidence>
    ensures { result ≡ option_map twice index }
{
    let place = index?;
    Some(Evidence {
        one: place,
        other: place,
    })
}
