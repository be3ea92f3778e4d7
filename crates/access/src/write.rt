// write: settle, then the write at a place, then levels, interrupt and wake.

ghost use Rattle.std.specs.Prelude.{◌≡◌, ◌<◌, ◌%◌, length};
ghost use Rattle.model.specs.Tests.{date_end};
ghost use Rattle.model.specs.Replies.{write_number};
ghost use Rattle.model.specs.Calls.{write as Calls·write};
ghost use Rattle.registers.specs.Places.{register_at};
ghost use Rattle.queue.specs.Cursors.{Held};
ghost use Rattle.device.specs.Holds.{abs, Valid};
ghost use Rattle.device.specs.Arms.{Ready};
ghost use Rattle.device.specs.Wholes.{arrays};
ghost use Rattle.calls.specs.Answers.{dated_call, Works, Answers};
ghost use Rattle.access.specs.ByPlace.{work_at};
ghost use Rattle.access.specs.Concludes.{ConcludesAny};

use crate::store::PlaceWrite;
use calls::answers::CallCore;
use calls::{answers, settle_at};
use device::Core;
use model::Write;
use registers::places;
use registers::places::Place;

pub type WriteCore = CallCore<Write>;

fn low_byte(value: u32) -> u8
    ensures { result ≡ value % 256 }
{
    (value & 0xFF) as u8
}

// Every write raises levels, drives the interrupt and arms, accepted or not.
fn conclude<'a>(
    put: PlaceWrite,
    gone_at: &'a [u64; 129],
    run_at: &'a [u64; 64],
    passes: u64,
    overflows: u64,
) -> WriteCore
    requires { Ready put.core gone_at.now × Held 64 put.core.runs × (length run_at.now ≡ 64) }
    ensures { ConcludesAny put gone_at.now run_at.now passes overflows result }
{
    let reply = put.reply;
    let notices = put.notices;
    let core = calls::conclude::conclude(put.core, gone_at, run_at);
    answers::answer(core, reply, passes, overflows, notices)
}

// FIFO sends a byte, and any other place takes the word.
fn carry_out<'a>(
    core: Core,
    gone_at: &'a mut [u64; 129],
    flight: &'a mut [u8; 129],
    tx: &'a mut [u8; 1152],
    host: &'a [u8; 1024],
    run_at: &'a [u64; 64],
    run_len: &'a mut [u64; 64],
    rx: &'a mut [u8; 128],
    cycle: u64,
    fifo: bool,
    byte: u8,
    place: Place,
    value: u32,
) -> WriteCore
    requires { Valid core (arrays gone_at.old flight.old tx.old host.now run_at.now run_len.old rx.old) × (cycle < date_end) }
    ensures { Works (λ x. x)
        (work_at fifo cycle byte (register_at place) value
        (abs core (arrays gone_at.old flight.old tx.old host.now run_at.now run_len.old rx.old)))
        result.core
        (arrays gone_at.new flight.new tx.new host.now run_at.now run_len.new rx.new)
        result.reply result.report }
{
    let t = settle_at::settle_at(core, gone_at, flight, tx, host, run_at, run_len, rx, cycle);
    if fifo {
        let sent = crate::send::send(t.core, gone_at, flight, cycle, byte);
        conclude(sent, gone_at, run_at, t.passes, t.overflows)
    } else {
        let put = crate::store::write_place(t.core, place, value);
        conclude(put, gone_at, run_at, t.passes, t.overflows)
    }
}

pub fn write<'a>(
    core: Core,
    gone_at: &'a mut [u64; 129],
    flight: &'a mut [u8; 129],
    tx: &'a mut [u8; 1152],
    host: &'a [u8; 1024],
    run_at: &'a [u64; 64],
    run_len: &'a mut [u64; 64],
    rx: &'a mut [u8; 128],
    cycle: u64,
    offset: u32,
    value: u32,
) -> WriteCore
    requires { Valid core (arrays gone_at.old flight.old tx.old host.now run_at.now run_len.old rx.old) }
    ensures { Answers (λ x. x) write_number (dated_call cycle (Calls·write cycle offset value) (abs core
        (arrays gone_at.old flight.old tx.old host.now run_at.now run_len.old rx.old))) core
        (arrays gone_at.old flight.old tx.old host.now run_at.now run_len.old rx.old) result.core
        (arrays gone_at.new flight.new tx.new host.now run_at.now run_len.new rx.new)
        result.reply result.report }
{
    let map = core.map;
    let offsets = map.offsets;
    let place = places::place_of(offsets, offset);
    let fifo = places::is_fifo(place);
    let control = core.control;
    let tests = crate::send::tests_at(fifo, cycle, control.last, core.tx.count, core.flight.count);
    match tests {
        Err(refusal) => answers::refuse(core, refusal),
        Ok(()) => carry_out(
            core,
            gone_at,
            flight,
            tx,
            host,
            run_at,
            run_len,
            rx,
            cycle,
            fifo,
            low_byte(value),
            place,
            value,
        ),
    }
}
