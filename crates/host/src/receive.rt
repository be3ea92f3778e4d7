// receive: settle, put the bytes behind the host bytes that wait, and arm. An empty one arms no wake.
ghost use Rattle.std.specs.Prelude.{◌≡◌, ◌<◌, length};
ghost use Rattle.model.specs.Tests.{date_end};
ghost use Rattle.model.specs.Calls.{receive as Calls·receive, host_date};
ghost use Rattle.device.specs.Holds.{abs, Valid};
ghost use Rattle.device.specs.Wholes.{arrays};
ghost use Rattle.calls.specs.Answers.{dated_call, dated_work, Works, DoneWith};
ghost use Rattle.host.specs.Hands.{Takes, HandsAny};
ghost use Rattle.host.specs.Receives.{Room};

use calls::answers::DoneCore;
use calls::{answers, settle_at};
use device::Core;
use replies::refusals::Waiting;

// The bytes' date: no earlier than now. In subcycles.
fn host_date(cycle: u64, at: u64) -> u64
    ensures { result ≡ host_date cycle at }
{
    dates::subcycles(dates::later(at, cycle))
}

// The bytes wait behind the others, and the wake is armed; none changes nothing.
// ASSUMPTION: the host sends at the baud rate and in the frame that the UART is set to, as a terminal set to match it does;
// another rate would give framing errors, which the model does not have.
fn hand_over<'a, 'b>(
    mut core: Core,
    gone_at: &'a [u64; 129],
    host: &'a mut [u8; 1024],
    run_at: &'a mut [u64; 64],
    run_len: &'a mut [u64; 64],
    date: u64,
    bytes: &'b [u8],
) -> Core
    requires { Takes core gone_at.now host.old run_at.old run_len.old date (length bytes.now) }
    ensures { HandsAny date bytes.now core gone_at.now host.old run_at.old
        run_len.old result host.new run_at.new run_len.new }
{
    let n = bytes.len();
    if n == 0 {
        return core;
    }
    let waiting = queue::copy::append(core.host, 1024, host, bytes);
    let runs = device::runs::join(core.runs, run_at, run_len, date, n as u64);
    core.host = waiting;
    core.runs = runs;
    device::arm::arm(core, gone_at, run_at)
}

fn carry_out<'a, 'b>(
    core: Core,
    gone_at: &'a [u64; 129],
    flight: &'a [u8; 129],
    tx: &'a mut [u8; 1152],
    host: &'a mut [u8; 1024],
    run_at: &'a mut [u64; 64],
    run_len: &'a mut [u64; 64],
    rx: &'a mut [u8; 128],
    cycle: u64,
    at: u64,
    bytes: &'b [u8],
) -> DoneCore
    requires { Valid core (arrays gone_at.now flight.now tx.old host.old run_at.old run_len.old rx.old)
        × (cycle < date_end) × Room core (arrays gone_at.now flight.now tx.old host.old run_at.old run_len.old rx.old) (host_date cycle at)
        (length bytes.now) }
    ensures { Works (λ x. x)
        (dated_work cycle (Calls·receive cycle at bytes.now)
        (abs core (arrays gone_at.now flight.now tx.old host.old run_at.old run_len.old rx.old)))
        result.core
        (arrays gone_at.now flight.now tx.new host.new run_at.new run_len.new rx.new)
        result.reply result.report }
{
    let t = settle_at::settle_at(core, gone_at, flight, tx, host, run_at, run_len, rx, cycle);
    let next = hand_over(
        t.core,
        gone_at,
        host,
        run_at,
        run_len,
        host_date(cycle, at),
        bytes,
    );
    answers::done(next, t.passes, t.overflows)
}

pub fn receive<'a, 'b>(
    core: Core,
    gone_at: &'a [u64; 129],
    flight: &'a [u8; 129],
    tx: &'a mut [u8; 1152],
    host: &'a mut [u8; 1024],
    run_at: &'a mut [u64; 64],
    run_len: &'a mut [u64; 64],
    rx: &'a mut [u8; 128],
    cycle: u64,
    at: u64,
    bytes: &'b [u8],
) -> DoneCore
    requires { Valid core (arrays gone_at.now flight.now tx.old host.old run_at.old run_len.old rx.old) }
    ensures { DoneWith (dated_call cycle (Calls·receive cycle at bytes.now)) core
        (arrays gone_at.now flight.now tx.old host.old run_at.old run_len.old rx.old) result.core
        (arrays gone_at.now flight.now tx.new host.new run_at.new run_len.new rx.new)
        result.reply result.report }
{
    let control = core.control;
    let waiting = Waiting {
        bytes: core.host.count,
        runs: core.runs.count,
        last_date: device::runs::last_date(core.runs, run_at),
    };
    let date = host_date(cycle, at);
    let tests = replies::refusals::receive_refusal(cycle, control.last, waiting, bytes.len(), date);
    match tests {
        Err(refusal) => answers::refuse(core, refusal),
        Ok(()) => carry_out(
            core, gone_at, flight, tx, host, run_at, run_len, rx, cycle, at, bytes,
        ),
    }
}
