// The whole answer of a call in plain numbers: the core after it, the reply and the report.
ghost use Rattle.std.specs.Prelude.{◌≡◌};
ghost use Rattle.ffi.specs.Replies.{plain_read, plain_write, plain_done, plain_taken, plain_row};
ghost use Rattle.ffi.specs.Answers.{plain_answer, plain_row_answer};

use crate::PlainCore;
use crate::results::{PlainReply, PlainReport, PlainRow};
use access::read::ReadCore;
use access::row::RowCore;
use access::write::WriteCore;
use calls::answers::DoneCore;
use device::Core;
use host::answers::TakeCore;
use model::Report;

#[repr(C)]
#[derive(Clone, Copy)]
pub struct PlainAnswer {
    pub core: PlainCore,
    pub reply: PlainReply,
    pub report: PlainReport,
}

// That of a row.
#[repr(C)]
#[derive(Clone, Copy)]
pub struct PlainRowAnswer {
    pub core: PlainCore,
    pub reply: PlainRow,
    pub report: PlainReport,
}

fn answer(core: Core, reply: PlainReply, report: Report) -> PlainAnswer
    ensures { result ≡ plain_answer core reply report }
{
    let plain_core = crate::plain_core(core);
    let plain_report = crate::results::plain_report(report);
    PlainAnswer {
        core: plain_core,
        reply,
        report: plain_report,
    }
}

pub fn read_answer(done: ReadCore) -> PlainAnswer
    ensures { result ≡ plain_answer done.core (plain_read done.reply) done.report }
{
    let reply = done.reply;
    let plain_reply = crate::results::read_reply(reply);
    answer(done.core, plain_reply, done.report)
}

pub fn write_answer(done: WriteCore) -> PlainAnswer
    ensures { result ≡ plain_answer done.core (plain_write done.reply) done.report }
{
    let reply = done.reply;
    let plain_reply = crate::results::write_reply(reply);
    answer(done.core, plain_reply, done.report)
}

pub fn done_answer(done: DoneCore) -> PlainAnswer
    ensures { result ≡ plain_answer done.core (plain_done done.reply) done.report }
{
    let reply = done.reply;
    let plain_reply = crate::results::done_reply(reply);
    answer(done.core, plain_reply, done.report)
}

pub fn taken_answer(done: TakeCore) -> PlainAnswer
    ensures { result ≡ plain_answer done.core (plain_taken done.reply) done.report }
{
    let reply = done.reply;
    let plain_reply = crate::results::taken_reply(reply);
    answer(done.core, plain_reply, done.report)
}

pub fn row_answer(done: RowCore) -> PlainRowAnswer
    ensures { result ≡ plain_row_answer done.core (plain_row done.reply) done.report }
{
    let row = done.reply;
    let plain_row = crate::results::row_reply(row);
    let core = crate::plain_core(done.core);
    let report = crate::results::plain_report(done.report);
    PlainRowAnswer {
        core,
        reply: plain_row,
        report,
    }
}
