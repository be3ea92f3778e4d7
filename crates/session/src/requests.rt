// Each call and each row on a UART that was set up, carried out and answered.
ghost use Rattle.std.specs.Prelude.{◌≡◌, true, [], take};
ghost use Rattle.std.proofs.Math.Option.{some};
ghost use Rattle.model.specs.Call.{Dated, Undated, Call, Asked};
ghost use Rattle.uart.specs.Whole.{Good, meaning};
ghost use Rattle.answers.specs.Replies.{read_text, write_text, row_text, done_text};
ghost use Rattle.session.specs.Requests.{command_of, calls, carried_out};
ghost use Rattle.session.specs.Sessions.{Wide, InUse, Gives};

use crate::line_figures::line_figures;
use crate::set_up::set_up;
use crate::take::{take_tx, take_written};
use crate::{Session, in_use};
use answers::results::{put_done, put_has_left, put_host_pending, put_read, put_row, put_write};
use text::parts::within;
use trace::low::low;
use trace::names::Name;
use uart::{AfterDone, AfterRead, AfterRow, AfterWrite, Uart};

// The first `count` of the bytes.
fn front(bytes: &[u8], count: usize) -> &[u8]
    ensures { result.now ≡ take count bytes.now }
{
    let n = within(count, bytes);
    &bytes[..n]
}

fn after_read(after: AfterRead, at: usize, out: &mut [u8]) -> Session
    requires { Wide out.old at }
    ensures { InUse (read_text after.report after.reply) after.uart out.old at out.new result }
{
    let reply = after.reply;
    let report = after.report;
    let next = put_read(out, at, reply, report);
    let uart = after.uart;
    in_use(uart, next)
}

fn after_write(after: AfterWrite, at: usize, out: &mut [u8]) -> Session
    requires { Wide out.old at }
    ensures { InUse (write_text after.report after.reply) after.uart out.old at out.new result }
{
    let reply = after.reply;
    let report = after.report;
    let next = put_write(out, at, reply, report);
    let uart = after.uart;
    in_use(uart, next)
}

fn after_row(after: AfterRow, at: usize, out: &mut [u8]) -> Session
    requires { Wide out.old at }
    ensures { InUse (row_text after.report after.reply) after.uart out.old at out.new result }
{
    let reply = after.reply;
    let report = after.report;
    let next = put_row(out, at, reply, report);
    let uart = after.uart;
    in_use(uart, next)
}

fn after_done(after: AfterDone, at: usize, out: &mut [u8]) -> Session
    requires { Wide out.old at }
    ensures { InUse (done_text after.report after.reply) after.uart out.old at out.new result }
{
    let reply = after.reply;
    let report = after.report;
    let next = put_done(out, at, reply, report);
    let uart = after.uart;
    in_use(uart, next)
}

fn write_row(
    uart: Uart,
    cycle: u64,
    bytes: &[u8],
    count: usize,
    at: usize,
    out: &mut [u8],
) -> Session
    requires good { Good uart }
    requires wide { Wide out.old at }
    ensures { Gives (calls (Asked.row cycle (take count bytes.now)) [] (some (meaning uart)))
        out.old at out.new result }
{
    after_row(uart.write_row(cycle, front(bytes, count)), at, out)
}

fn receive(
    uart: Uart,
    cycle: u64,
    date: u64,
    bytes: &[u8],
    count: usize,
    at: usize,
    out: &mut [u8],
) -> Session
    requires good { Good uart }
    requires wide { Wide out.old at }
    ensures { Gives (calls (Asked.call (Call.at cycle (Dated.receive date (take count bytes.now)))) []
        (some (meaning uart))) out.old at out.new result }
{
    after_done(uart.receive(cycle, date, front(bytes, count)), at, out)
}

fn has_left(uart: Uart, at: usize, out: &mut [u8]) -> Session
    requires { Good uart }
    ensures { Gives (calls (Asked.call (Call.undated Undated.has_left)) [] (some (meaning uart)))
        out.old at out.new result }
{
    let answer = uart.has_left();
    let next = put_has_left(out, at, answer.has_left);
    in_use(uart, next)
}

fn host_pending(uart: Uart, at: usize, out: &mut [u8]) -> Session
    requires good { Good uart }
    requires wide { Wide out.old at }
    ensures { Gives (calls (Asked.call (Call.undated Undated.host_pending)) [] (some (meaning uart)))
        out.old at out.new result }
{
    let answer = uart.host_pending();
    let next = put_host_pending(out, at, answer.count);
    in_use(uart, next)
}

// Carries out a call or a row, with its numbers in the order of its words, or what the line `s` asks beside them.
pub fn carry_out(
    session: Session,
    name: Name,
    numbers: [u64; 32],
    last: usize,
    bytes: &[u8],
    s: &[u8],
    out: &mut [u8],
) -> Session
    requires good { Good session.uart }
    requires ready_value { session.ready ≡ true }
    requires wide { Wide out.old session.at }
    ensures { Gives (carried_out (command_of name numbers last bytes.now s.now) []
        (some (meaning session.uart))) out.old session.at out.new result }
{
    let uart = session.uart;
    let at = session.at;
    let now = numbers[0];
    let second = numbers[1];
    match name {
        Name::Setup => set_up(session, numbers, out),
        Name::Read => after_read(uart.read(now, low(second)), at, out),
        Name::Write => after_write(uart.write(now, low(second), low(numbers[2])), at, out),
        Name::WriteRow => write_row(uart, now, bytes, last, at, out),
        Name::Receive => receive(uart, now, second, bytes, last, at, out),
        Name::Wake => after_done(uart.wake(now), at, out),
        Name::Watch => after_done(uart.watch(now, last == 1), at, out),
        Name::Reset => after_done(uart.reset(now), at, out),
        Name::PowerDown => after_done(uart.power_down(now), at, out),
        Name::Clock => after_done(uart.clock_change(now, second), at, out),
        Name::TakeTx => take_tx(uart, now, last, at, out),
        Name::TakeWritten => take_written(uart, last, at, out),
        Name::HasLeft => has_left(uart, at, out),
        Name::HostPending => host_pending(uart, at, out),
        Name::Figures => line_figures(session, s, out),
    }
}
