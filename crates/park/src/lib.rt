// A UART parked: its state written as a form. What a form is stands in the crate `form`.
#![tactic(auto)]

mod control;
mod head;
mod marks;
mod put;
mod rings;
pub mod save;
mod words;
