//! What a net has, in numbers.

/// How many leaves a net has, how many registers among them, and how many arrays of memories.
#[derive(Clone, Copy)]
pub struct Counts {
    pub leaves: u64,
    pub registers: u64,
    pub memories: u64,
}
