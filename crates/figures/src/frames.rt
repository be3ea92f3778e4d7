// The figures of a line's frames.
ghost use Rattle.std.specs.Prelude.{◌≡◌};
ghost use Rattle.figures.specs.Figures.{figures_of};

use crate::pass::SoFar;
use crate::report::{Figures, UnfitFrames};

// The longest list of frames.
pub const FRAMES: usize = 1024;

// The figures of the frames that start and end at these subcycles, in order. They are refused where a frame ends before it starts, or
// starts before the one before it ends, or there are more than FRAMES, or not as many starts as ends.
// Two slices, as the C interface lends them.
pub fn figures(starts: &[u64], ends: &[u64]) -> Result<Figures, UnfitFrames>
    ensures { result ≡ figures_of starts.now ends.now }
{
    if starts.len() != ends.len() || starts.len() > FRAMES {
        return Err(UnfitFrames);
    }
    let mut so_far = SoFar::begin();
    for (&start, &end) in starts.iter().zip(ends) {
        if start < so_far.end || end < start {
            return Err(UnfitFrames);
        }
        so_far = so_far.next(start, end);
    }
    Ok(so_far.finish())
}
