// read: settle, and then the value at a place.

ghost use Rattle.std.specs.Prelude.{◌≡◌, ◌<◌};
ghost use Rattle.model.specs.Tests.{date_end};
ghost use Rattle.model.specs.Replies.{as_read, read_number};
ghost use Rattle.model.specs.Calls.{read_placed, read as Calls·read};
ghost use Rattle.registers.specs.Places.{register_at};
ghost use Rattle.device.specs.Holds.{abs, Valid};
ghost use Rattle.device.specs.Wholes.{arrays};
ghost use Rattle.calls.specs.Answers.{dated_call, dated_work, Works, Answers};

use calls::answers::CallCore;
use calls::{answers, settle_at};
use device::Core;
use model::Read;
use registers::places;
use registers::places::Place;

pub type ReadCore = CallCore<Read>;

fn carry_out<'a>(
    core: Core,
    gone_at: &'a [u64; 129],
    flight: &'a [u8; 129],
    tx: &'a mut [u8; 1152],
    host: &'a [u8; 1024],
    run_at: &'a [u64; 64],
    run_len: &'a mut [u64; 64],
    rx: &'a mut [u8; 128],
    cycle: u64,
    place: Place,
) -> ReadCore
    requires { Valid core (arrays gone_at.now flight.now tx.old host.now run_at.now run_len.old rx.old) × (cycle < date_end) }
    ensures { Works as_read
        (dated_work cycle (read_placed cycle (register_at place))
        (abs core (arrays gone_at.now flight.now tx.old host.now run_at.now run_len.old rx.old)))
        result.core
        (arrays gone_at.now flight.now tx.new host.now run_at.now run_len.new rx.new)
        result.reply result.report }
{
    let t = settle_at::settle_at(core, gone_at, flight, tx, host, run_at, run_len, rx, cycle);
    let settled = t.core;
    let got = crate::load::read_place(settled, rx, place);
    let after = got.core;
    let reply = got.reply;
    let notices = got.notices;
    answers::answer(after, reply, t.passes, t.overflows, notices)
}

pub fn read<'a>(
    core: Core,
    gone_at: &'a [u64; 129],
    flight: &'a [u8; 129],
    tx: &'a mut [u8; 1152],
    host: &'a [u8; 1024],
    run_at: &'a [u64; 64],
    run_len: &'a mut [u64; 64],
    rx: &'a mut [u8; 128],
    cycle: u64,
    offset: u32,
) -> ReadCore
    requires { Valid core (arrays gone_at.now flight.now tx.old host.now run_at.now run_len.old rx.old) }
    ensures { Answers as_read read_number (dated_call cycle (Calls·read cycle offset) (abs core
        (arrays gone_at.now flight.now tx.old host.now run_at.now run_len.old rx.old))) core
        (arrays gone_at.now flight.now tx.old host.now run_at.now run_len.old rx.old) result.core
        (arrays gone_at.now flight.now tx.new host.now run_at.now run_len.new rx.new)
        result.reply result.report }
{
    let map = core.map;
    let offsets = map.offsets;
    let place = places::place_of(offsets, offset);
    let control = core.control;
    let tests = replies::refusals::date_refusal(cycle, control.last);
    match tests {
        Err(refusal) => answers::refuse(core, refusal),
        Ok(()) => carry_out(
            core, gone_at, flight, tx, host, run_at, run_len, rx, cycle, place,
        ),
    }
}
