// The figures of a line's frames. They need no UART, and change none.
ghost use Rattle.std.specs.Prelude.{◌≡◌};
ghost use Rattle.trace.specs.Pairs.{firsts_in, seconds_in};
ghost use Rattle.figures.specs.Figures.{figures_of};
ghost use Rattle.uart.specs.Whole.{Good};
ghost use Rattle.session.specs.Requests.{tells};
ghost use Rattle.session.specs.Sessions.{stands_for, Wide, Gives};

use crate::Session;
use answers::line_figures::put_figures;
use figures::frames::figures;
use figures::report::{Figures, UnfitFrames};
use trace::pairs::pairs_of;

// Of a longer list the first 1,025 frames decide.
fn figures_of(s: &[u8]) -> Result<Figures, UnfitFrames>
    ensures { result ≡ figures_of (firsts_in s.now) (seconds_in s.now) }
{
    let mut starts = [0u64; 1025];
    let mut ends = [0u64; 1025];
    let n = pairs_of(s, &mut starts, &mut ends);
    figures(&starts[0..n], &ends[0..n])
}

pub fn line_figures(session: Session, s: &[u8], out: &mut [u8]) -> Session
    requires good { Good session.uart }
    requires wide { Wide out.old session.at }
    ensures { Gives (tells (firsts_in s.now) (seconds_in s.now) (stands_for session))
        out.old session.at out.new result }
{
    let at = put_figures(out, session.at, figures_of(s));
    session.with_output(at)
}
