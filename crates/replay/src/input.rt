// Standard input, line by line, in constant memory.
ghost use Rattle.std.specs.Prelude.{◌≡◌, false, length};
ghost use Rattle.uart.specs.Whole.{Good};
ghost use Rattle.session.specs.Sessions.{stands_for, Wide, Gives};
ghost use Rattle.session.specs.Lines.{answered};
ghost use Rattle.text.specs.Input.{has_line};
ghost use Rattle.text.specs.Pick.{pick};

use session::lines::answer_line;
use session::{Session, begin as begin_session};
use streams::input::read_more;
use streams::output::{Output, flush, keep_up};
use text::input::{Input, begin, has_line, next_line};

// The output is written once it is filled so far; any answer then fits behind it: 17,408 bytes are left of 65,536.
const FULL: usize = 48128;

// A proved loop has to end, so it counts its turns down from a number that no run uses up.
pub(crate) fn run(rt: &HostRuntime) {
    let mut chunk = [0u8; 65536];
    let mut line = [0u8; 65536];
    let mut bytes = [0u8; 32768];
    let mut out = [0u8; 65536];
    let mut input = begin();
    let mut session = begin_session();
    let mut failed = false;
    let mut turns = u64::MAX;
    while turns > 0 && input.more {
        input = read_more(rt, input, failed, &mut chunk, b"replay: standard input");
        input = next_line(input, &chunk, &mut line);
        let output = Output {
            at: session.at,
            failed,
        };
        let kept = keep_up(
            rt,
            output,
            has_line(input),
            FULL,
            &out,
            b"replay: standard output",
        );
        session.at = kept.at;
        failed = kept.failed;
        if is_answered(input, failed) {
            session = answer(session, input, &line, &mut bytes, &mut out);
        }
        turns -= 1;
    }
    let output = Output {
        at: session.at,
        failed,
    };
    flush(rt, output, &out, b"replay: standard output");
}

// A line that stands there is answered, but for one after a write that failed.
fn is_answered(input: Input, failed: bool) -> bool
    ensures { result ≡ pick failed false (has_line input) }
{
    if failed {
        return false;
    }
    has_line(input)
}

// In the loop a session is handed over only where there is a line, for it is the largest part of the state.
fn answer(
    session: Session,
    input: Input,
    line: &[u8; 65536],
    bytes: &mut [u8; 32768],
    out: &mut [u8; 65536],
) -> Session
    requires good { Good session.uart }
    requires wide { Wide out.old session.at }
    ensures gives { Gives (answered input line.now bytes.old (stands_for session)) out.old session.at
        out.new result }
    ensures out_len_unchanged { length out.new ≡ length out.old }
{
    answer_line(session, input, line, bytes, out)
}
