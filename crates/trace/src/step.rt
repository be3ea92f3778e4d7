// A step along a line.

// How far the line was read, and the number that was read.
#[derive(Clone, Copy, Debug, PartialEq, Eq)]
pub struct Step {
    pub to: usize,
    pub number: u64,
}
