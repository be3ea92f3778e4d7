// The frames of a line, put out anew. Frames are dates, and dates are kept; of frames that are refused nothing is.
ghost use Rattle.std.specs.Prelude.{◌≡◌, length};
ghost use Rattle.blanking.specs.Entries.{pairs};
ghost use Rattle.blanking.specs.FrameLaws.{frames};
ghost use Rattle.blanking.specs.Puts.{Puts};

use crate::call::put_two;
use figures::frames::figures;
use figures::report::UnfitFrames;
use trace::pairs::pairs_of;

// A start and an end, one pair after another.
fn put_pairs(out: &mut [u8], at: usize, starts: &[u64], ends: &[u64]) -> usize
    requires { length starts.now ≡ length ends.now }
    ensures { Puts (pairs starts.now ends.now) out.old at out.new result }
{
    let mut place = at;
    for (&start, &end) in starts.iter().zip(ends) {
        place = put_two(out, place, start, end);
    }
    place
}

// The frames of the line `s`; those that are refused are put out as one that is refused too.
pub fn put_frames(out: &mut [u8], at: usize, s: &[u8]) -> usize
    ensures { Puts (frames s.now) out.old at out.new result }
{
    let mut starts = [0u64; 1025];
    let mut ends = [0u64; 1025];
    let n = pairs_of(s, &mut starts, &mut ends);
    let answer = figures(&starts[0..n], &ends[0..n]);
    match answer {
        Err(UnfitFrames) => put_two(out, at, 1, 0),
        Ok(_) => put_pairs(out, at, &starts[0..n], &ends[0..n]),
    }
}
