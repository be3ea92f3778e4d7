// One mixed workload over the parts of a UART, as a program that embeds it would call: firmware sends a row, a host answers
// with one, an interrupt handler reads it, and a console takes what was sent. compare/programs/src/bin/workload.rs does the
// same on the published Rust.
#![tactic(auto)]

mod notes;
mod steps;

ghost use Rattle.std.specs.Prelude.{◌<◌};
ghost use Rattle.device.specs.Holds.{Valid};
ghost use Rattle.device.specs.Wholes.{arrays};
ghost use Rattle.uart.specs.Whole.{Good};

use crate::notes::Notes;
use crate::steps::{STEPS, Step, cycle_at, step_at};
use device::Core;
use model::{Read, Taken};
use std::io;
use uart::Uart;

#[derive(Clone, Copy)]
struct Tally {
    core: Core,
    notes: Notes,
}

fn value_of(reply: Read) -> u32 {
    match reply {
        Ok(Some(value)) => value,
        Ok(None) => 0,
        Err(_) => 0,
    }
}

fn count_of(reply: Taken) -> u64 {
    match reply {
        Ok(count) => count as u64,
        Err(_) => 0,
    }
}

// Step `n`. Each call over parts stands here once, so that the compiler makes one function of them all.
fn carry_out<'a>(
    from: Tally,
    gone_at: &'a mut [u64; 129],
    flight: &'a mut [u8; 129],
    tx: &'a mut [u8; 1152],
    host: &'a mut [u8; 1024],
    run_at: &'a mut [u64; 64],
    run_len: &'a mut [u64; 64],
    rx: &'a mut [u8; 128],
    n: u64,
) -> Tally
    requires { Valid from.core (arrays gone_at.old flight.old tx.old host.old run_at.old run_len.old rx.old) × (n < 13402) }
    ensures { Valid result.core (arrays gone_at.new flight.new tx.new host.new run_at.new run_len.new rx.new) }
{
    let core = from.core;
    let notes = from.notes;
    let cycle = cycle_at(n);
    let step = step_at(n, notes);
    match step {
        Step::Look(offset) => {
            let after = access::read::read(
                core, gone_at, flight, tx, host, run_at, run_len, rx, cycle, offset,
            );
            let next = after.core;
            let reply = after.reply;
            Tally {
                core: next,
                notes: notes.look(offset, value_of(reply)),
            }
        }
        Step::Write(offset, value) => {
            let after = access::write::write(
                core, gone_at, flight, tx, host, run_at, run_len, rx, cycle, offset, value,
            );
            let next = after.core;
            Tally { core: next, notes }
        }
        Step::Receive => {
            let row = *b"basket 7, row 12";
            let after = host::receive::receive(
                core,
                gone_at,
                flight,
                tx,
                host,
                run_at,
                run_len,
                rx,
                cycle,
                cycle + 100,
                &row,
            );
            let next = after.core;
            Tally { core: next, notes }
        }
        Step::Wake => {
            let after = calls::wake::wake(
                core, gone_at, flight, tx, host, run_at, run_len, rx, cycle,
            );
            let next = after.core;
            Tally { core: next, notes }
        }
        Step::Take => {
            let mut buffer = [0u8; 1152];
            let after = host::take_tx::take_tx(
                core,
                gone_at,
                flight,
                tx,
                host,
                run_at,
                run_len,
                rx,
                cycle,
                &mut buffer,
            );
            let next = after.core;
            let reply = after.reply;
            let pending = calls::queries::host_pending(next).count as u64;
            let left = calls::queries::has_left(next).has_left as u64;
            Tally {
                core: next,
                notes: notes.add(count_of(reply)).add(pending).add(left),
            }
        }
        Step::Pass => from,
    }
}

fn show(rt: &HostRuntime, sum: u64) -> io::Result<()> {
    println!(rt; "sum {sum}")
}

fn run(rt: &HostRuntime, new: Uart) -> io::Result<()>
    requires { Good new }
{
    let core = new.core;
    let mut gone_at = new.gone_at;
    let mut flight = new.flight;
    let mut tx = new.tx;
    let mut host = new.host;
    let mut run_at = new.run_at;
    let mut run_len = new.run_len;
    let mut rx = new.rx;
    let mut tally = Tally {
        core,
        notes: Notes {
            sum: 0,
            raised: 0,
            status: 0,
        },
    };
    let mut n: u64 = 0;
    while n < STEPS {
        tally = carry_out(
            tally,
            &mut gone_at,
            &mut flight,
            &mut tx,
            &mut host,
            &mut run_at,
            &mut run_len,
            &mut rx,
            n,
        );
        n += 1;
    }
    show(rt, tally.notes.sum)
}

fn main(rt: HostRuntime) -> io::Result<()> {
    let made = Uart::new(bench_settings::OFFSETS, bench_settings::RESETS);
    let reply = made.reply;
    match reply {
        Err(_) => show(&rt, 0),
        Ok(()) => run(&rt, made.uart),
    }
}
