//! Tests of `parse`, whose crate is long to prove, and would be proved twice with tests of its own: each form of the
//! grammar with its tree, the greatest nesting, and the tokens that come back with a fault. What `parse` gives for
//! every text its contract says; here stand values that no clause of it names.
#![tactic(auto)]

#[cfg(test)]
mod trees;
