// The figures of a line in plain numbers, as Rust and C read them.
ghost use Rattle.std.specs.Prelude.{◌≡◌};
ghost use Rattle.ffi.specs.Figures.{plain_place, plain_figures};

use figures::report::{Figures, UnfitFrames};

// The number of a list of frames that is refused.
const UNFIT_LIST: u32 = 9;

#[repr(C)]
#[derive(Clone, Copy)]
pub struct PlainFigures {
    // 0 for done, or the number of a refusal: then all else is 0. C has no Result.
    pub number: u32,
    // Whether the longest quiet stretch has a place: with fewer than two frames it has none, and `at` is 0. C has no Option.
    pub placed: bool,
    // In subcycles, as are the others, but for `at`, the place of the frame before the longest quiet stretch, from 0.
    pub busy: u64,
    pub shortest: u64,
    pub longest: u64,
    pub quiet: u64,
    pub at: u64,
    pub mean: u64,
    pub remainder: u64,
}

// A place, or none: `at` is 0 while `placed` is false.
#[derive(Clone, Copy)]
struct PlainPlace {
    placed: bool,
    at: u64,
}

fn plain_place(place: Option<usize>) -> PlainPlace
    ensures { result ≡ plain_place place }
{
    match place {
        None => PlainPlace {
            placed: false,
            at: 0,
        },
        Some(at) => PlainPlace {
            placed: true,
            at: at as u64,
        },
    }
}

pub fn plain_figures(answer: Result<Figures, UnfitFrames>) -> PlainFigures
    ensures { result ≡ plain_figures answer }
{
    match answer {
        Ok(given) => {
            let place = plain_place(given.at);
            PlainFigures {
                number: 0,
                placed: place.placed,
                busy: given.busy,
                shortest: given.shortest,
                longest: given.longest,
                quiet: given.quiet,
                at: place.at,
                mean: given.mean,
                remainder: given.remainder,
            }
        }
        Err(UnfitFrames) => PlainFigures {
            number: UNFIT_LIST,
            placed: false,
            busy: 0,
            shortest: 0,
            longest: 0,
            quiet: 0,
            at: 0,
            mean: 0,
            remainder: 0,
        },
    }
}
