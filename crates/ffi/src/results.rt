// Replies and reports in plain numbers, as Rust and C read them.

ghost use Rattle.std.specs.Prelude.{◌≡◌};
ghost use Rattle.ffi.specs.Replies.{plain_set_up, plain_read, plain_write, plain_done, plain_taken, plain_left, plain_pending, plain_row};
ghost use Rattle.ffi.specs.Replies.{refused_reply, carried_out, plain_report};

use crate::PlainDate;
use crate::notices::PlainNotice;
use calls::queries::{HasLeft, HostPending};
use model::{Done, Read, Refusal, Report, Row, SetUp, Taken, Write};
use replies::refusals::number_of;

#[repr(C)]
#[derive(Clone, Copy)]
pub struct PlainReply {
    // 0 for done, or document 01's number of a refusal: C has no Result.
    pub number: u32,
    // read: there is a value. write: accepted. has_left: a byte has left. Every other call: carried out.
    pub holds: bool,
    // read: the value. take_tx, take_written and host_pending: how many bytes. Every other call: 0.
    pub value: u64,
}

// The reply of a row.
#[repr(C)]
#[derive(Clone, Copy)]
pub struct PlainRow {
    // 0 for done, or document 01's number of a refusal: C has no Result.
    pub number: u32,
    // How many of the bytes were written.
    pub made: u64,
    // How often the first notice of the report came, and the second.
    pub first: u64,
    pub second: u64,
}

// The report of a dated call; that of a refused or an undated one is fixed, with nothing in it.
#[repr(C)]
#[derive(Clone, Copy)]
pub struct PlainReport {
    pub level: bool,
    // In cycles.
    pub wake: PlainDate,
    pub overflows: u64,
    pub passes: u64,
    pub noted: usize,
    // The first `noted` of these, in order.
    pub notices: [PlainNotice; 8],
}

fn refusal_reply(refusal: Refusal) -> PlainReply
    ensures { result ≡ refused_reply refusal }
{
    PlainReply {
        number: number_of(refusal),
        holds: false,
        value: 0,
    }
}

fn carried_out(holds: bool, value: u64) -> PlainReply
    ensures { result ≡ carried_out holds value }
{
    PlainReply {
        number: 0,
        holds,
        value,
    }
}

pub fn set_up_reply(reply: SetUp) -> PlainReply
    ensures { result ≡ plain_set_up reply }
{
    done_reply(reply)
}

pub fn read_reply(reply: Read) -> PlainReply
    ensures { result ≡ plain_read reply }
{
    match reply {
        Ok(read) => match read {
            Some(value) => carried_out(true, value as u64),
            None => carried_out(false, 0),
        },
        Err(refusal) => refusal_reply(refusal),
    }
}

pub fn write_reply(reply: Write) -> PlainReply
    ensures { result ≡ plain_write reply }
{
    match reply {
        Ok(accepted) => carried_out(accepted, 0),
        Err(refusal) => refusal_reply(refusal),
    }
}

pub fn done_reply(reply: Done) -> PlainReply
    ensures { result ≡ plain_done reply }
{
    match reply {
        Ok(()) => carried_out(true, 0),
        Err(refusal) => refusal_reply(refusal),
    }
}

pub fn taken_reply(reply: Taken) -> PlainReply
    ensures { result ≡ plain_taken reply }
{
    match reply {
        Ok(count) => carried_out(true, count as u64),
        Err(refusal) => refusal_reply(refusal),
    }
}

pub fn row_reply(reply: Row) -> PlainRow
    ensures { result ≡ plain_row reply }
{
    match reply {
        Ok(made) => PlainRow {
            number: 0,
            made: made.count as u64,
            first: made.first,
            second: made.second,
        },
        Err(refusal) => PlainRow {
            number: number_of(refusal),
            made: 0,
            first: 0,
            second: 0,
        },
    }
}

// An undated call has its number from the call over parts.
pub fn left_reply(left: HasLeft) -> PlainReply
    ensures { result ≡ plain_left left }
{
    PlainReply {
        number: left.number,
        holds: left.has_left,
        value: 0,
    }
}

pub fn pending_reply(pending: HostPending) -> PlainReply
    ensures { result ≡ plain_pending pending }
{
    PlainReply {
        number: pending.number,
        holds: true,
        value: pending.count as u64,
    }
}

pub fn plain_report(report: Report) -> PlainReport
    ensures { result ≡ plain_report report }
{
    let wake = report.wake;
    let list = report.notices;
    let notices = crate::notices::plain_notices(list, report.noted);
    PlainReport {
        level: report.level,
        wake: crate::plain_date(wake),
        overflows: report.overflows,
        passes: report.passes,
        noted: report.noted,
        notices,
    }
}
