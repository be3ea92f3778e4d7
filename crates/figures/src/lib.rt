// Figures of a line from its frames: how long it was busy, its shortest and longest frame, its longest quiet stretch, its mean frame. It
// knows no UART: a frame is a start and an end, in subcycles.
#![tactic(auto)]

pub mod frames;
mod pass;
pub mod report;
