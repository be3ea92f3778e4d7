// The answer line of `figures`.
ghost use Rattle.text.specs.Output.{Put};
ghost use Rattle.text.specs.Chains.{Room, Puts};
ghost use Rattle.answers.specs.LineFigures.{place_text, stretch_text, figures_text};

use crate::reports::put_field;
use figures::report::{Figures, UnfitFrames};
use text::output::put;

fn put_place(out: &mut [u8], at: usize, place: Option<usize>) -> usize
    ensures { Puts (place_text place) out.old at out.new result }
{
    match place {
        None => put(out, at, b" at=-"),
        Some(frame) => put_field(out, at, b" at=", frame as u64),
    }
}

// All up to the place of the longest quiet stretch.
fn put_stretch(out: &mut [u8], at: usize, figures: Figures) -> usize
    ensures { Puts (stretch_text figures) out.old at out.new result }
{
    let busy = put_field(out, at, b"0 busy=", figures.busy);
    let shortest = put_field(out, busy, b" shortest=", figures.shortest);
    let longest = put_field(out, shortest, b" longest=", figures.longest);
    let quiet = put_field(out, longest, b" quiet=", figures.quiet);
    put_place(out, quiet, figures.at)
}

pub fn put_figures(out: &mut [u8], at: usize, answer: Result<Figures, UnfitFrames>) -> usize
    requires { Room (figures_text answer) out.old at }
    ensures { Put (figures_text answer) out.old at out.new result }
{
    match answer {
        Err(UnfitFrames) => put(out, at, b"9\n"),
        Ok(figures) => {
            let stretch = put_stretch(out, at, figures);
            let mean = put_field(out, stretch, b" mean=", figures.mean);
            let remainder = put_field(out, mean, b" remainder=", figures.remainder);
            put(out, remainder, b"\n")
        }
    }
}
