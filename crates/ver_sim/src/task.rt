//! What a process gives, and the net that takes it.

use crate::work::Work;

/// A process by number: the net that is its target, and what it computes.
#[derive(Drop)]
pub struct Task {
    pub target: usize,
    pub work: Work,
}
