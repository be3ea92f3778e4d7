// write_row: bytes written to FIFO at one cycle. The first write settles. Those after it find nothing due, unless the byte before leaves
// at once (a divider of 0): then each of them settles too.
ghost use Rattle.std.specs.Prelude.{◌≡◌, List, ℕ, ◌+◌, ◌≤◌, ltb, length, None};
ghost use Rattle.model.specs.Numbers.{choose};
ghost use Rattle.model.specs.Tests.{transmit_full};
ghost use Rattle.model.specs.Row.{times_of, row_number, row as Row·row};
ghost use Rattle.model.specs.declared.Source.{Source};
ghost use Rattle.queue.specs.Cursors.{Held};
ghost use Rattle.access.specs.Row.{counts_of, row_notices};
ghost use Rattle.device.specs.Holds.{abs, Valid};
ghost use Rattle.calls.specs.Answers.{Works, Answers};
ghost use Rattle.device.specs.Wholes.{arrays};
ghost use Rattle.access.specs.RowParts.{due_of, goes_on, one_more, none_yet, SumsLow, Begins, AllSettled, Room, FillsAny};
ghost use Rattle.access.specs.RowParts.{room_of, over_of, row_core, row_work, Totals, Passed};

use calls::answers::CallCore;
use calls::{answers, settle_at};
use device::Core;
use model::{Made, Row, Source, Unsupported};
use registers::words;
use replies::notices::Notices;

// The most bytes of a row that are written.
const ROW_LIMIT: usize = 1152;

// The most bytes in flight, and the most with those that left.
const FLIGHT_LIMIT: usize = 129;

const SENT_LIMIT: usize = 1152;

pub type RowCore = CallCore<Row>;

// What the writes so far come to, and whether the next one settles.
#[derive(Clone, Copy)]
struct RowSoFar {
    core: Core,
    made: usize,
    passes: u64,
    overflows: u64,
    dropped: usize,
    goes_on: bool,
}

// The clock's source is told of where a byte was sent.
fn told(source: Source, sent: usize) -> Source
    ensures { result ≡ choose (ltb 0 sent) source Source.None }
{
    if 0 < sent { source } else { Source::None }
}

// The notices of a row: a clock's where a byte was sent, and UartOverflow where one was dropped.
fn notices_of(source: Source, sent: usize, dropped: usize) -> Notices
    ensures { result ≡ row_notices source sent dropped }
{
    let first = replies::notices::clock_notices(told(source, sent));
    first.note_if(0 < dropped, Unsupported::UartOverflow)
}

// How often the first of them came.
fn first_times(source: Source, sent: usize, dropped: usize) -> u64
    ensures { result ≡ times_of 0 (counts_of source sent dropped) }
{
    let told = told(source, sent);
    match told {
        Source::None => dropped as u64,
        Source::Sel0 => sent as u64,
        Source::Sel2 => sent as u64,
    }
}

// And the second.
fn second_times(source: Source, sent: usize, dropped: usize) -> u64
    ensures { result ≡ times_of 1 (counts_of source sent dropped) }
{
    let told = told(source, sent);
    match told {
        Source::None => 0,
        Source::Sel0 => dropped as u64,
        Source::Sel2 => dropped as u64,
    }
}

// Bytes left and in flight total 1,152: the next write would be refused.
fn full(core: Core) -> bool
    requires { Held 1152 core.tx × Held 129 core.flight }
    ensures { result ≡ transmit_full core.tx.count core.flight.count }
{
    SENT_LIMIT <= core.tx.count + core.flight.count
}

// Whether the last byte in flight is due at a cycle.
fn due(core: Core, gone_at: &[u64; 129], cycle: u64) -> bool
    requires { Held 129 core.flight × (length gone_at.now ≡ 129) }
    ensures { (bytes : List ℕ) → result ≡ due_of cycle core gone_at.now bytes }
{
    let control = core.control;
    let powered_down_at = control.powered_down_at;
    let date = line::levels::settling_date(cycle, powered_down_at);
    let last = device::arm::last_gone(gone_at, core.flight);
    match last {
        None => false,
        Some(gone) => gone <= date,
    }
}

// Whether the next write settles too: the last byte in flight is due, a byte is left, and there is room for it.
fn goes_on(dropped: bool, due: bool, more: bool, full: bool) -> bool
    ensures { result ≡ goes_on dropped due more full }
{
    if dropped {
        return false;
    }
    if due {
        if more { !full } else { false }
    } else {
        false
    }
}

fn count_if(yes: bool, count: usize) -> usize
    requires { count ≤ 1152 }
    ensures { result ≡ choose yes (count + 1) count }
{
    if yes { count + 1 } else { count }
}

// One write more, which left this core, after so many passes and overflows.
fn one_more(
    at: RowSoFar,
    core: Core,
    passes: u64,
    overflows: u64,
    dropped: bool,
    due: bool,
    n: usize,
) -> RowSoFar
    requires { SumsLow at n × (passes ≤ 2052) × (overflows ≤ 2052) × Held 1152 core.tx × Held 129 core.flight }
    ensures { result ≡ one_more at core passes overflows dropped due n }
{
    let made = at.made + 1;
    let on = goes_on(dropped, due, made < n, full(core));
    let lost = count_if(dropped, at.dropped);
    RowSoFar {
        core,
        made,
        passes: at.passes + passes,
        overflows: at.overflows + overflows,
        dropped: lost,
        goes_on: on,
    }
}

// No write yet.
fn none_yet(core: Core, n: usize) -> RowSoFar
    ensures { result ≡ none_yet core n }
{
    let some = 0 < n;
    RowSoFar {
        core,
        made: 0,
        passes: 0,
        overflows: 0,
        dropped: 0,
        goes_on: some,
    }
}

// The writes that settle.
fn settling_writes<'a, 'b>(
    core: Core,
    gone_at: &'a mut [u64; 129],
    flight: &'a mut [u8; 129],
    tx: &'a mut [u8; 1152],
    host: &'a [u8; 1024],
    run_at: &'a [u64; 64],
    run_len: &'a mut [u64; 64],
    rx: &'a mut [u8; 128],
    cycle: u64,
    bytes: &'b [u8],
    n: usize,
) -> RowSoFar
    requires { Begins cycle core (arrays gone_at.old flight.old tx.old host.now run_at.now run_len.old rx.old) bytes.now n }
    ensures { AllSettled cycle bytes.now n (abs core (arrays gone_at.old flight.old tx.old host.now run_at.now run_len.old rx.old)) result
        (arrays gone_at.new flight.new tx.new host.now run_at.now run_len.new rx.new) }
{
    let mut at = none_yet(core, n);
    while at.goes_on {
        let t = settle_at::settle_at(
            at.core, gone_at, flight, tx, host, run_at, run_len, rx, cycle,
        );
        let settled = t.core;
        let dropped = words::fifo_full(settled.flight.count);
        let made = at.made;
        let sent = crate::send::send(settled, gone_at, flight, cycle, bytes[made]);
        let next = calls::conclude::conclude(sent.core, gone_at, run_at);
        let is_due = due(next, gone_at, cycle);
        at = one_more(at, next, t.passes, t.overflows, dropped, is_due, n);
    }
    at
}

// So many bytes more, from one place on, on a still state: each joins those in flight.
fn fill<'a, 'b>(
    core: Core,
    gone_at: &'a mut [u64; 129],
    flight: &'a mut [u8; 129],
    cycle: u64,
    bytes: &'b [u8],
    from: usize,
    n: usize,
) -> Core
    requires { Room core gone_at.old flight.old bytes.now from n }
    ensures { FillsAny cycle bytes.now from n core gone_at.old flight.old result
        gone_at.new flight.new }
{
    let control = core.control;
    let words = control.words;
    let date = dates::subcycles(cycle);
    let takes = timing::byte_time(words, control.period);
    let mut flying = core.flight;
    let mut wake = control.wake;
    let mut i: usize = 0;
    while i < n {
        let at = flying.back(129);
        gone_at[at] = crate::send::gone_after(gone_at, flying, date, takes);
        flight[at] = bytes[from + i];
        let longer = flying.pushed();
        flying = longer;
        wake = device::arm::wake_below(wake, words.conf1, gone_at, flying);
        i += 1;
    }
    let mut filled = device::arm::with_wake_of(core, wake);
    filled.flight = flying;
    filled
}

// How many bytes more join those in flight: of those that are left, as many as fit.
fn room(core: Core, left: usize) -> usize
    requires { Held 129 core.flight × (core.tx.count + core.flight.count ≤ 1152) }
    ensures { result ≡ room_of core left }
{
    let flying = FLIGHT_LIMIT - core.flight.count;
    let sent = core.tx.count + core.flight.count;
    queue::smaller(left, queue::smaller(flying, SENT_LIMIT - sent))
}

// How many of those that are left then are dropped.
fn over(core: Core, left: usize) -> usize
    requires { Held 1152 core.tx × Held 129 core.flight }
    ensures { result ≡ over_of core left }
{
    if words::fifo_full(core.flight.count) {
        if full(core) { 0 } else { left }
    } else {
        0
    }
}

fn answer(core: Core, at: RowSoFar, sent: usize, over: usize) -> RowCore
    requires { Totals at sent over }
    ensures { result ≡ row_core core at sent over }
{
    let control = core.control;
    let words = control.words;
    let source = timing::source::unmodelled_source(words.clk_conf);
    let made = at.made + sent + over;
    let dropped = at.dropped + over;
    let notices = notices_of(source, made - dropped, dropped);
    let row = Made {
        count: made,
        first: first_times(source, made - dropped, dropped),
        second: second_times(source, made - dropped, dropped),
    };
    let passes = at.passes + (sent + over) as u64;
    answers::answer(core, Ok(row), passes, at.overflows, notices)
}

// The writes that settle, then those that do not, then those that are dropped.
fn carry_out<'a, 'b>(
    core: Core,
    gone_at: &'a mut [u64; 129],
    flight: &'a mut [u8; 129],
    tx: &'a mut [u8; 1152],
    host: &'a [u8; 1024],
    run_at: &'a [u64; 64],
    run_len: &'a mut [u64; 64],
    rx: &'a mut [u8; 128],
    cycle: u64,
    bytes: &'b [u8],
) -> RowCore
    requires { Passed cycle core (arrays gone_at.old flight.old tx.old host.now run_at.now run_len.old rx.old) bytes.now }
    ensures { Works (λ x. x)
        (row_work cycle bytes.now (abs core (arrays gone_at.old flight.old tx.old host.now run_at.now run_len.old rx.old)))
        result.core
        (arrays gone_at.new flight.new tx.new host.now run_at.now run_len.new rx.new)
        result.reply result.report }
{
    let n = queue::smaller(bytes.len(), ROW_LIMIT);
    let first = settling_writes(
        core, gone_at, flight, tx, host, run_at, run_len, rx, cycle, bytes, n,
    );
    let from = first.made;
    let sent = room(first.core, n - from);
    let filled = fill(first.core, gone_at, flight, cycle, bytes, from, sent);
    let lost = over(filled, n - from - sent);
    answer(filled, first, sent, lost)
}

pub fn write_row<'a, 'b>(
    core: Core,
    gone_at: &'a mut [u64; 129],
    flight: &'a mut [u8; 129],
    tx: &'a mut [u8; 1152],
    host: &'a [u8; 1024],
    run_at: &'a [u64; 64],
    run_len: &'a mut [u64; 64],
    rx: &'a mut [u8; 128],
    cycle: u64,
    bytes: &'b [u8],
) -> RowCore
    requires { Valid core (arrays gone_at.old flight.old tx.old host.now run_at.now run_len.old rx.old) }
    ensures { Answers (λ x. x) row_number (Row·row cycle bytes.now (abs core
        (arrays gone_at.old flight.old tx.old host.now run_at.now run_len.old rx.old))) core
        (arrays gone_at.old flight.old tx.old host.now run_at.now run_len.old rx.old) result.core
        (arrays gone_at.new flight.new tx.new host.now run_at.now run_len.new rx.new)
        result.reply result.report }
{
    let control = core.control;
    let some = 0 < bytes.len();
    let tests = crate::send::tests_at(some, cycle, control.last, core.tx.count, core.flight.count);
    match tests {
        Err(refusal) => answers::refuse(core, refusal),
        Ok(()) => carry_out(
            core, gone_at, flight, tx, host, run_at, run_len, rx, cycle, bytes,
        ),
    }
}
