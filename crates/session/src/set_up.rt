// Set-up: a new UART, or the one before.
ghost use Rattle.std.specs.Prelude.{map, take, drop};
ghost use Rattle.trace.specs.Low.{low_of};
ghost use Rattle.uart.specs.Whole.{Good};
ghost use Rattle.session.specs.Requests.{sets_up};
ghost use Rattle.session.specs.Sessions.{stands_for, Wide, Gives};

use crate::{Session, in_use};
use answers::results::put_set_up;
use trace::low::sixteen;
use uart::Uart;

// A refused set-up leaves the UART before in place.
pub fn set_up(session: Session, words: [u64; 32], out: &mut [u8]) -> Session
    requires good { Good session.uart }
    requires wide { Wide out.old session.at }
    ensures { Gives (sets_up (take 16 (map low_of (drop 0 words))) (take 16 (map low_of (drop 16 words))) (stands_for session))
        out.old session.at out.new result }
{
    let new = Uart::new(sixteen(words, 0), sixteen(words, 16));
    let reply = new.reply;
    let at = put_set_up(out, session.at, reply);
    match reply {
        Ok(()) => {
            let uart = new.uart;
            in_use(uart, at)
        }
        Err(_) => session.with_output(at),
    }
}
