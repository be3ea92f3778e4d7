// Standard input, a chunk at a time, and standard output, for the programs that read a trace.
#![tactic(auto)]

mod failure;
pub mod input;
pub mod output;
