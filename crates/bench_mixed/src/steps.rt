// The workload as numbered steps: two that enable interrupts, and then a hundred rows of 134, in each of which firmware sends 16
// bytes with a look before each, a host answers with a row, a handler is called twenty times, and a console takes what was sent.
ghost use Rattle.std.specs.Prelude.{◌≡◌, ◌<◌, ◌≤◌};
ghost use Rattle.bench_mixed.specs.Steps.{place_of, offset_at, cycle_at, enabling, sending, handling, in_row, step_at};

use crate::notes::Notes;

pub const STEPS: u64 = 13402;

#[derive(Clone, Copy)]
pub enum Step {
    // A read at an offset.
    Look(u32),
    // To an offset, a word.
    Write(u32, u32),
    Receive,
    Wake,
    Take,
    // What the handler does only where a byte is held.
    Pass,
}

// Where a step stands in its row.
fn place(n: u64) -> u64
    requires { 2 ≤ n }
    ensures { (result ≡ place_of n) × (result < 134) }
{
    (n - 2) % 134
}

// The cycle of a place in a row, from the row's first on.
fn offset_at(i: u64) -> u64
    requires { i < 134 }
    ensures { (result ≡ offset_at i) × (result ≤ 9000) }
{
    if i < 32 {
        (i / 2) * 10
    } else if i == 32 {
        200
    } else if i < 133 {
        ((i - 33) / 5) * 420 + 300
    } else {
        9000
    }
}

// The cycle of a step.
pub fn cycle_at(n: u64) -> u64
    requires { n < 13402 }
    ensures { (result ≡ cycle_at n) × (result ≤ 2010000) }
{
    if n < 2 {
        return 0;
    }
    ((n - 2) / 134) * 20000 + 1000 + offset_at(place(n))
}

// A byte held raises RXFIFO_FULL, and the timeout is on.
fn enable(n: u64) -> Step
    ensures { result ≡ enabling n }
{
    if n == 0 {
        Step::Write(bench_settings::INT_ENA, 0x4113)
    } else {
        Step::Write(bench_settings::CONF1, 0x20C001)
    }
}

// The firmware: a look at the transmit FIFO before each byte.
fn send(i: u64) -> Step
    requires { i < 32 }
    ensures { result ≡ sending i }
{
    if i % 2 == 0 {
        Step::Look(bench_settings::STATUS)
    } else {
        Step::Write(bench_settings::FIFO, (i / 2 + 32) as u32)
    }
}

// The handler: what is raised, one byte where one is held, and what was raised is cleared.
fn handle(i: u64, notes: Notes) -> Step
    ensures { result ≡ handling i notes }
{
    match i % 5 {
        0 => Step::Wake,
        1 => Step::Look(bench_settings::INT_ST),
        2 => Step::Look(bench_settings::STATUS),
        3 => {
            if notes.status & 0x3FF == 0 {
                Step::Pass
            } else {
                Step::Look(bench_settings::FIFO)
            }
        }
        _ => Step::Write(bench_settings::INT_CLR, notes.raised),
    }
}

fn step_in_row(i: u64, notes: Notes) -> Step
    ensures { result ≡ in_row i notes }
{
    if i < 32 {
        send(i)
    } else if i == 32 {
        Step::Receive
    } else if i < 133 {
        handle(i - 33, notes)
    } else {
        Step::Take
    }
}

pub fn step_at(n: u64, notes: Notes) -> Step
    ensures { result ≡ step_at n notes }
{
    if n < 2 {
        return enable(n);
    }
    step_in_row(place(n), notes)
}
