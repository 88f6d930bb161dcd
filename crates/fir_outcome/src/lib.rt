//! What comes of the text of a circuit and of its runs, whatever the command: the definitions alone, which the contract of
//! the program's one call is made of. Sources and Runs say how a circuit runs; Compiles, CircuitFaults, Refusals and Emits
//! what comes of its text; Traces and Simulations what is printed of its runs.
#![tactic(auto)]
