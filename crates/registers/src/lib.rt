// The registers: an offset's place, the fields of a word, the nine words that are stored, the words that a read makes up. Carried over
// from inkemu's uart.rs and changed.
#![tactic(auto)]

pub mod fields;
pub mod places;
pub mod storage;
pub mod words;
