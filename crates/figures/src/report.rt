// What is reported of a line.

// In subcycles, but for the place. The mean frame has a quotient and a remainder.
#[derive(Clone, Copy, PartialEq, Eq, Debug)]
pub struct Figures {
    pub busy: u64,
    pub shortest: u64,
    pub longest: u64,
    pub quiet: u64,
    // The place of the frame before the longest quiet stretch, from 0. With fewer than two frames there is none.
    pub at: Option<usize>,
    pub mean: u64,
    pub remainder: u64,
}

// The frames are refused: they are not in order, or too many, or not as many starts as ends.
#[derive(Clone, Copy, PartialEq, Eq, Debug)]
pub struct UnfitFrames;
