//! Paths of the same leaf of two elements of one vector.

ghost use Rattle.std.specs.Prelude.{◌≡◌, ◌↔◌, IsTrue};
ghost use Rattle.fir_meaning.specs.LeafPaths.{element, named};
ghost use Rattle.fir_infer_resets.specs.working.DirectWalks.{AreElementPaths, DiffersAt, IsElement, SharesFirst};
ghost use Rattle.fir_infer_resets.specs.working.Holding.{path_of, step_of};

use crate::item::Step;
use fir_base::Name;

/// Whether two paths are those of the same leaf of two elements of one vector.
pub fn are_element_paths(one: &[Step], other: &[Step]) -> bool
    ensures { IsTrue result ↔ AreElementPaths (path_of one.now) (path_of other.now) }
{
    let shared = shared_steps(one, other);
    if shared == one.len() || shared == other.len() {
        return false;
    }
    if !are_elements(&one[shared], &other[shared]) {
        return false;
    }
    are_same(&one[shared + 1..], &other[shared + 1..])
}

fn are_same(one: &[Step], other: &[Step]) -> bool
    ensures { IsTrue result ↔ (path_of one.now ≡ path_of other.now) }
{
    one.len() == other.len() && shared_steps(one, other) == one.len()
}

/// How many steps at the heads of two paths are the same.
fn shared_steps(one: &[Step], other: &[Step]) -> usize
    ensures shared { SharesFirst one.now other.now result }
    ensures most { DiffersAt (path_of one.now) (path_of other.now) result }
{
    let mut shared = 0;
    while shared < one.len() && shared < other.len() {
        if !is_same(&one[shared], &other[shared]) {
            return shared;
        }
        shared += 1;
    }
    shared
}

fn is_same(one: &Step, other: &Step) -> bool
    ensures { IsTrue result ↔ (step_of one.now ≡ step_of other.now) }
{
    match one {
        Step::Named(name) => has_name(other, name),
        Step::Element(index) => has_index(other, *index),
    }
}

fn has_name(step: &Step, name: &Name) -> bool
    ensures { IsTrue result ↔ (named name.now ≡ step_of step.now) }
{
    match step {
        Step::Named(own) => *own == name,
        Step::Element(_) => false,
    }
}

fn has_index(step: &Step, index: u128) -> bool
    ensures { IsTrue result ↔ (element index ≡ step_of step.now) }
{
    match step {
        Step::Named(_) => false,
        Step::Element(own) => *own == index,
    }
}

fn are_elements(one: &Step, other: &Step) -> bool
    ensures { IsTrue result ↔ IsElement (step_of one.now) × IsElement (step_of other.now) }
{
    is_element(one) && is_element(other)
}

fn is_element(step: &Step) -> bool
    ensures { IsTrue result ↔ IsElement (step_of step.now) }
{
    matches!(step, Step::Element(_))
}
