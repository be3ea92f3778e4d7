// Text as the replay format has it: lines, words, numbers and bytes, read and spelled, over slices that the caller lends. Nothing here
// reads or writes a file.
#![tactic(auto)]

mod digits;
pub mod hex;
pub mod input;
mod letters;
mod lines;
pub mod names;
pub mod numbers;
pub mod output;
pub mod parts;
mod scan;
pub mod spelling;
pub mod words;
