// The lines of a trace (docs/REPLAY.md), answered: each call is carried out on the UART that was set up last, and its answer is
// put into a lent buffer.
#![tactic(auto)]

mod line_figures;
pub mod lines;
mod requests;
mod set_up;
mod take;

ghost use Rattle.std.specs.Prelude.{◌≡◌};
ghost use Rattle.std.proofs.Math.Option.{none};
ghost use Rattle.uart.specs.Whole.{Good};
ghost use Rattle.session.specs.Sessions.{Begins, moved_to, set_up};

use uart::Uart;
use uart::placeholder::stand_in;

// Before the first set-up the UART is one that no call reaches. The output is filled up to `at`.
#[derive(Clone, Copy)]
pub struct Session {
    pub uart: Uart,
    pub ready: bool,
    pub at: usize,
}

// Nothing is set up.
pub fn begin() -> Session
    ensures { Begins result }
{
    let uart = stand_in();
    Session {
        uart,
        ready: false,
        at: 0,
    }
}

impl Session {
    // The output is filled up to another place.
    pub fn with_output(mut self, at: usize) -> Session
        ensures { result ≡ moved_to at self }
    {
        self.at = at;
        self
    }
}

// A UART that was set up.
fn in_use(uart: Uart, at: usize) -> Session
    ensures { result ≡ set_up uart at }
{
    Session {
        uart,
        ready: true,
        at,
    }
}
