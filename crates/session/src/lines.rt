// The answer to a line.
ghost use Rattle.std.specs.Prelude.{◌≡◌, false};
ghost use Rattle.uart.specs.Whole.{Good};
ghost use Rattle.answers.specs.Faults.{fault_text};
ghost use Rattle.session.specs.Answers.{GivesFirst};
ghost use Rattle.session.specs.Lines.{says, bytes_in, answered};
ghost use Rattle.session.specs.Sessions.{stands_for, Wide, Gives};

use crate::Session;
use crate::line_figures::line_figures;
use crate::requests::carry_out;
use crate::set_up::set_up;
use answers::faults::{put_fault, put_long};
use text::input::Input;
use text::parts::within;
use text::words::next_word;
use trace::asks::{Asks, asks_of};
use trace::faults::{Fault, Reason};
use trace::line::{Call, read_line};
use trace::names::Name;

fn wrong(session: Session, s: &[u8], fault: Fault, out: &mut [u8]) -> Session
    requires good { Good session.uart }
    requires wide { Wide out.old session.at }
    ensures { Gives (says (fault_text s.now fault) (stands_for session)) out.old session.at
        out.new result }
{
    let at = put_fault(out, session.at, s, fault);
    session.with_output(at)
}

// A call before the first set-up.
fn first_call(session: Session, s: &[u8], name: Name, numbers: [u64; 32], out: &mut [u8]) -> Session
    requires good { Good session.uart }
    requires ready_value { session.ready ≡ false }
    requires wide { Wide out.old session.at }
    ensures { GivesFirst name numbers s.now out.old session.at out.new result }
{
    let asks = asks_of(name);
    match asks {
        Asks::SetUp => set_up(session, numbers, out),
        Asks::Figures => line_figures(session, s, out),
        Asks::Uart => {
            let fault = Fault::of(Reason::NoUart, next_word(s, 0));
            wrong(session, s, fault, out)
        }
    }
}

// Puts the answer to the line at the front of `line`. A line that is no call changes nothing.
pub fn answer_line(
    session: Session,
    input: Input,
    line: &[u8],
    bytes: &mut [u8],
    out: &mut [u8],
) -> Session
    requires good { Good session.uart }
    requires wide { Wide out.old session.at }
    ensures gives { Gives (answered input line.now bytes.old (stands_for session)) out.old session.at
        out.new result }
    ensures bytes_after { bytes.new ≡ bytes_in input line.now bytes.old }
{
    if input.long {
        let at = put_long(out, session.at);
        return session.with_output(at);
    }
    let n = within(input.len, line);
    let s = &line[..n];
    let mut numbers = [0u64; 32];
    match read_line(s, &mut numbers, bytes) {
        Ok(None) => session,
        Ok(Some(Call { name, last })) => {
            if session.ready {
                carry_out(session, name, numbers, last, bytes, s, out)
            } else {
                first_call(session, s, name, numbers, out)
            }
        }
        Err(fault) => wrong(session, s, fault, out),
    }
}
