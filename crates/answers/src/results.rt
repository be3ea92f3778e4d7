// The answer line of each call: its own result, and its report where it is dated. A refusal is its number alone.
ghost use Rattle.text.specs.Output.{Put};
ghost use Rattle.text.specs.Chains.{Room, Puts};
ghost use Rattle.answers.specs.Replies.{set_up_text, read_text, write_text, done_text, row_text, hand_out_text, taken_text};
ghost use Rattle.answers.specs.Replies.{written_text, has_left_text, host_pending_text};

use crate::refusals::put_refusal;
use crate::reports::{put_report, put_row_report};
use model::{Done, Read, Report, Row, SetUp, Write};
use text::output::{put, put_bytes};
use text::spelling::{put_decimal, put_word};

pub fn put_set_up(out: &mut [u8], at: usize, reply: SetUp) -> usize
    requires { Room (set_up_text reply) out.old at }
    ensures { Put (set_up_text reply) out.old at out.new result }
{
    match reply {
        Ok(()) => put(out, at, b"0\n"),
        Err(refusal) => put_refusal(out, at, refusal),
    }
}

pub fn put_read(out: &mut [u8], at: usize, reply: Read, report: Report) -> usize
    requires { Room (read_text report reply) out.old at }
    ensures { Put (read_text report reply) out.old at out.new result }
{
    match reply {
        Err(refusal) => put_refusal(out, at, refusal),
        Ok(read) => match read {
            Some(value) => {
                let named = put(out, at, b"0 value=");
                let result = put_word(out, named, value);
                put_report(out, result, report)
            }
            None => {
                let result = put(out, at, b"0 value=none");
                put_report(out, result, report)
            }
        },
    }
}

pub fn put_write(out: &mut [u8], at: usize, reply: Write, report: Report) -> usize
    requires { Room (write_text report reply) out.old at }
    ensures { Put (write_text report reply) out.old at out.new result }
{
    match reply {
        Err(refusal) => put_refusal(out, at, refusal),
        Ok(accepted) => {
            if accepted {
                let result = put(out, at, b"0 accepted=1");
                put_report(out, result, report)
            } else {
                let result = put(out, at, b"0 accepted=0");
                put_report(out, result, report)
            }
        }
    }
}

pub fn put_done(out: &mut [u8], at: usize, reply: Done, report: Report) -> usize
    requires { Room (done_text report reply) out.old at }
    ensures { Put (done_text report reply) out.old at out.new result }
{
    match reply {
        Err(refusal) => put_refusal(out, at, refusal),
        Ok(()) => {
            let result = put(out, at, b"0 done");
            put_report(out, result, report)
        }
    }
}

pub fn put_row(out: &mut [u8], at: usize, reply: Row, report: Report) -> usize
    requires { Room (row_text report reply) out.old at }
    ensures { Put (row_text report reply) out.old at out.new result }
{
    match reply {
        Err(refusal) => put_refusal(out, at, refusal),
        Ok(made) => {
            let named = put(out, at, b"0 made=");
            let result = put_decimal(out, named, made.count as u64);
            put_row_report(out, result, made, report)
        }
    }
}

// The bytes of a hand-out, and whether what was lent after them is as it was.
fn put_hand_out(out: &mut [u8], at: usize, bytes: &[u8], kept: bool) -> usize
    ensures { Puts (hand_out_text bytes.now kept) out.old at out.new result }
{
    let named = put(out, at, b"0 bytes=");
    let result = put_bytes(out, named, bytes);
    if kept {
        put(out, result, b" rest=kept")
    } else {
        put(out, result, b" rest=changed")
    }
}

// The hand-out of take_tx.
pub fn put_taken(out: &mut [u8], at: usize, bytes: &[u8], kept: bool, report: Report) -> usize
    requires { Room (taken_text bytes.now kept report) out.old at }
    ensures { Put (taken_text bytes.now kept report) out.old at out.new result }
{
    let handed = put_hand_out(out, at, bytes, kept);
    put_report(out, handed, report)
}

// The hand-out of take_written, which is not dated.
pub fn put_written(out: &mut [u8], at: usize, bytes: &[u8], kept: bool) -> usize
    requires { Room (written_text bytes.now kept) out.old at }
    ensures { Put (written_text bytes.now kept) out.old at out.new result }
{
    let result = put_hand_out(out, at, bytes, kept);
    put(out, result, b"\n")
}

pub fn put_has_left(out: &mut [u8], at: usize, has_left: bool) -> usize
    ensures { Put (has_left_text has_left) out.old at out.new result }
{
    if has_left {
        put(out, at, b"0 has_left=1\n")
    } else {
        put(out, at, b"0 has_left=0\n")
    }
}

pub fn put_host_pending(out: &mut [u8], at: usize, count: usize) -> usize
    requires { Room (host_pending_text count) out.old at }
    ensures { Put (host_pending_text count) out.old at out.new result }
{
    let named = put(out, at, b"0 host_pending=");
    let number = put_decimal(out, named, count as u64);
    put(out, number, b"\n")
}
