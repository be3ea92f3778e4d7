// One pass over the frames: what those so far come to.
ghost use Rattle.std.specs.Prelude.{◌≡◌, max};
ghost use Rattle.figures.specs.Figures.{frame, mean_of, remainder_of};
ghost use Rattle.figures.specs.Pass.{Follows, begun, shorter_of, gap_to, next_place, next as Pass·next, place_in, finished};

use crate::report::Figures;

// `end` is where the last of them ended, and `place` that of the frame before the longest quiet stretch; both are 0 at first.
#[derive(Clone, Copy)]
pub struct SoFar {
    pub frames: usize,
    pub end: u64,
    pub busy: u64,
    pub shortest: u64,
    pub longest: u64,
    pub quiet: u64,
    pub place: usize,
}

impl SoFar {
    // No frame yet.
    pub fn begin() -> SoFar
        ensures { result ≡ begun }
    {
        SoFar {
            frames: 0,
            end: 0,
            busy: 0,
            shortest: 0,
            longest: 0,
            quiet: 0,
            place: 0,
        }
    }

    // The shortest with a frame of this length; the first frame is the shortest.
    fn shorter(self, length: u64) -> u64
        ensures { result ≡ shorter_of self.frames self.shortest length }
    {
        if self.frames == 0 {
            return length;
        }
        self.shortest.min(length)
    }

    // The longest with it.
    fn longer(self, length: u64) -> u64
        ensures { result ≡ max self.longest length }
    {
        self.longest.max(length)
    }

    // The quiet stretch before a frame; before the first there is none.
    fn gap_to(self, start: u64) -> u64
        ensures { result ≡ gap_to self.frames self.end start }
    {
        if self.frames == 0 {
            return 0;
        }
        start.saturating_sub(self.end)
    }

    // A stretch takes the place only where it is longer, so that the earliest of the longest keeps it.
    fn place_after(self, gap: u64) -> usize
        ensures { result ≡ next_place self.frames self.quiet self.place gap }
    {
        if self.frames != 0 && self.quiet < gap {
            self.frames - 1
        } else {
            self.place
        }
    }

    // One frame more.
    pub fn next(self, start: u64, end: u64) -> SoFar
        requires { Follows self start end }
        ensures { result ≡ Pass·next self (frame start end) }
    {
        let length = end - start;
        let gap = self.gap_to(start);
        SoFar {
            frames: self.frames + 1,
            end,
            busy: self.busy + length,
            shortest: self.shorter(length),
            longest: self.longer(length),
            quiet: self.quiet.max(gap),
            place: self.place_after(gap),
        }
    }

    // The place, where there are two frames or more.
    fn place_in(self) -> Option<usize>
        ensures { result ≡ place_in self.frames self.place }
    {
        if self.frames < 2 {
            return None;
        }
        Some(self.place)
    }

    // All frames were passed.
    pub fn finish(self) -> Figures
        ensures { result ≡ finished self }
    {
        let mean = mean_of(self.busy, self.frames);
        Figures {
            busy: self.busy,
            shortest: self.shortest,
            longest: self.longest,
            quiet: self.quiet,
            at: self.place_in(),
            mean: mean.quotient,
            remainder: mean.remainder,
        }
    }
}

// The mean frame.
#[derive(Clone, Copy)]
struct Mean {
    quotient: u64,
    remainder: u64,
}

fn mean_of(busy: u64, frames: usize) -> Mean
    ensures { (result.quotient ≡ mean_of busy frames) × (result.remainder ≡ remainder_of busy frames) }
{
    let count = frames as u64;
    if count == 0 {
        return Mean {
            quotient: 0,
            remainder: 0,
        };
    }
    Mean {
        quotient: busy / count,
        remainder: busy % count,
    }
}
