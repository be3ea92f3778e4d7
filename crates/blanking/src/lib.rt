// A trace without a client's bytes: what is put in their place, and the text of every line; specs/ has the theorems on blanked lists.
#![tactic(auto)]

mod call;
mod frames;
pub mod line;
mod words;
