//! Tests of the simulator over arrays and pipes, and over registers that reset at once and registers without a clock, which no
//! text reaches yet; and some of the roots of clocks, of inits and of the order of a net with an array. What texts reach stands in
//! checks/rows.
#![tactic(auto)]

#[cfg(test)]
mod array_nets;
#[cfg(test)]
mod arrays;
#[cfg(test)]
mod clock_nets;
#[cfg(test)]
mod clock_roots;
#[cfg(test)]
mod init_nets;
#[cfg(test)]
mod inits;
#[cfg(test)]
mod nets;
#[cfg(test)]
mod orders;
#[cfg(test)]
mod pipe_nets;
#[cfg(test)]
mod pipes;
#[cfg(test)]
mod resets;
