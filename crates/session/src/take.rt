// The two calls that fill a lent buffer. It is lent full of marks, so that a byte that a call may not change is seen.
ghost use Rattle.std.specs.Prelude.{◌≡◌, [], ◌-◌, ◌≤◌, length, drop};
ghost use Rattle.std.proofs.Math.Option.{some};
ghost use Rattle.text.specs.Same.{same_bytes};
ghost use Rattle.model.specs.Call.{Dated, Undated, Call, Asked};
ghost use Rattle.uart.specs.Whole.{Good, meaning};
ghost use Rattle.session.specs.Requests.{mark_at, marks_from, lent_of, calls};
ghost use Rattle.session.specs.Sessions.{Wide, InUse, Gives};
ghost use Rattle.session.specs.HandOuts.{taken_line, written_line};

use crate::{Session, in_use};
use answers::refusals::put_refusal;
use answers::results::{put_taken, put_written};
use text::parts::within;
use uart::{AfterTake, Uart};

// The mark at a place: another one at the next.
fn mark(i: usize) -> u8
    ensures { result ≡ mark_at i }
{
    (i % 256) as u8 ^ 0x5A
}

// A buffer to lend, full of marks.
fn marks() -> [u8; 8192]
    ensures value { 8192 ≡ length result }
    ensures value_2 { result ≡ marks_from 0 8192 }
{
    let mut lent = [0u8; 8192];
    for (i, slot) in lent.iter_mut().enumerate() {
        *slot = mark(i);
    }
    lent
}

// The marks from a place on are as they were.
fn same_marks(lent: &[u8], from: usize) -> bool
    requires { from ≤ length lent.now }
    ensures { result ≡ same_bytes (drop from lent.now) (marks_from from (length lent.now - from)) }
{
    for i in from..lent.len() {
        if lent[i] != mark(i) {
            return false;
        }
    }
    true
}

// The line of take_tx's answer.
fn after_take(after: AfterTake, lent: &[u8], at: usize, out: &mut [u8]) -> Session
    requires wide { Wide out.old at }
    requires lent_len_bound { length lent.now ≤ 8192 }
    ensures { InUse (taken_line after.report lent.now after.reply) after.uart
        out.old at out.new result }
{
    let reply = after.reply;
    let report = after.report;
    let uart = after.uart;
    match reply {
        Err(refusal) => in_use(uart, put_refusal(out, at, refusal)),
        Ok(count) => {
            let n = within(count, lent);
            let kept = same_marks(lent, n);
            in_use(uart, put_taken(out, at, &lent[..n], kept, report))
        }
    }
}

// That of take_written's.
fn after_written(after: AfterTake, lent: &[u8], at: usize, out: &mut [u8]) -> Session
    requires wide { Wide out.old at }
    requires lent_len_bound { length lent.now ≤ 8192 }
    ensures { InUse (written_line lent.now after.reply) after.uart
        out.old at out.new result }
{
    let reply = after.reply;
    let uart = after.uart;
    match reply {
        Err(refusal) => in_use(uart, put_refusal(out, at, refusal)),
        Ok(count) => {
            let n = within(count, lent);
            let kept = same_marks(lent, n);
            in_use(uart, put_written(out, at, &lent[..n], kept))
        }
    }
}

fn lend_tx(uart: Uart, cycle: u64, lent: &mut [u8], at: usize, out: &mut [u8]) -> Session
    requires good { Good uart }
    requires wide { Wide out.old at }
    requires lent_value { lent.old ≡ marks_from 0 (length lent.old) }
    requires lent_len_bound { length lent.old ≤ 8192 }
    ensures { Gives (calls (Asked.call (Call.at cycle (Dated.take_tx lent.old))) [] (some (meaning uart)))
        out.old at out.new result }
{
    let after = uart.take_tx(cycle, lent);
    after_take(after, lent, at, out)
}

fn lend_written(uart: Uart, lent: &mut [u8], at: usize, out: &mut [u8]) -> Session
    requires good { Good uart }
    requires wide { Wide out.old at }
    requires lent_value { lent.old ≡ marks_from 0 (length lent.old) }
    requires lent_len_bound { length lent.old ≤ 8192 }
    ensures { Gives (calls (Asked.call (Call.undated (Undated.take_written lent.old))) [] (some (meaning uart)))
        out.old at out.new result }
{
    let after = uart.take_written(lent);
    after_written(after, lent, at, out)
}

pub(crate) fn take_tx(uart: Uart, cycle: u64, size: usize, at: usize, out: &mut [u8]) -> Session
    requires good { Good uart }
    requires wide { Wide out.old at }
    ensures { Gives (calls (Asked.call (Call.at cycle (Dated.take_tx (lent_of size)))) [] (some (meaning uart)))
        out.old at out.new result }
{
    let mut lent = marks();
    let n = within(size, &lent);
    lend_tx(uart, cycle, &mut lent[..n], at, out)
}

pub(crate) fn take_written(uart: Uart, size: usize, at: usize, out: &mut [u8]) -> Session
    requires good { Good uart }
    requires wide { Wide out.old at }
    ensures { Gives (calls (Asked.call (Call.undated (Undated.take_written (lent_of size)))) [] (some (meaning uart)))
        out.old at out.new result }
{
    let mut lent = marks();
    let m = within(size, &lent);
    lend_written(uart, &mut lent[..m], at, out)
}
