// The core, replies, reports and figures in plain numbers, as Rust and C hold them: an exported function may neither take nor give an enum.
#![tactic(auto)]

pub mod answers;
pub mod line_figures;
pub mod notices;
pub mod results;

ghost use Rattle.std.specs.Prelude.{◌≡◌};
ghost use Rattle.ffi.specs.Plain.{date_of, plain_date, source_of, plain_source};
ghost use Rattle.ffi.specs.Plain.{receiving_of, line_of, control_of, core_of, plain_core, on_the_line};

use device::Core;
use line::Receiving;
use model::{Control, Date, Frame, Line, RegisterMap, Source, Words};
use queue::Cursor;

// A date, or none: `at` is 0 while `set` is false. C has no Option, so a flag stands beside it.
#[repr(C)]
#[derive(Clone, Copy)]
pub struct PlainDate {
    pub set: bool,
    pub at: u64,
}

// What `Core` holds. A source is one more than its SCLK_SEL, 0 for none.
#[repr(C)]
#[derive(Clone, Copy)]
pub struct PlainCore {
    pub map: RegisterMap,
    pub words: Words,
    pub int_raw: u32,
    pub rx_mistimed: u32,
    pub idle_since: PlainDate,
    pub line_free_at: u64,
    // In cycles, as are `last` and `wake`.
    pub period: u64,
    pub last: u64,
    pub wake: PlainDate,
    pub powered_down_at: PlainDate,
    // The source of the byte on the line, and whether its start was heard: 0 and false while nothing is on it. Flags, for C.
    pub timed_on: u32,
    pub on_the_line: bool,
    pub heard: bool,
    pub watched: bool,
    pub level: bool,
    pub flight: Cursor,
    pub tx: Cursor,
    pub host: Cursor,
    pub runs: Cursor,
    pub rx: Cursor,
    pub byte: u8,
}

fn date_of(date: PlainDate) -> Date
    ensures { result ≡ date_of date }
{
    if date.set { Some(date.at) } else { None }
}

pub fn plain_date(date: Date) -> PlainDate
    ensures { result ≡ plain_date date }
{
    match date {
        None => PlainDate { set: false, at: 0 },
        Some(at) => PlainDate { set: true, at },
    }
}

fn source_of(code: u32) -> Source
    ensures { result ≡ source_of code }
{
    if code == 1 {
        return Source::Sel0;
    }
    if code == 3 {
        return Source::Sel2;
    }
    Source::None
}

fn plain_source(source: Source) -> u32
    ensures { result ≡ plain_source source }
{
    match source {
        Source::None => 0,
        Source::Sel0 => 1,
        Source::Sel2 => 3,
    }
}

fn receiving_of(on_the_line: bool, timed_on: u32, heard: bool) -> Receiving
    ensures { result ≡ receiving_of on_the_line timed_on heard }
{
    if on_the_line {
        let source = source_of(timed_on);
        Some(Frame {
            timed_on: source,
            heard,
        })
    } else {
        None
    }
}

// What is on the line beside its byte, in plain numbers.
#[derive(Clone, Copy)]
struct OnTheLine {
    on: bool,
    timed_on: u32,
    heard: bool,
}

fn on_the_line(receiving: Receiving) -> OnTheLine
    ensures { result ≡ on_the_line receiving }
{
    match receiving {
        None => OnTheLine {
            on: false,
            timed_on: 0,
            heard: false,
        },
        Some(frame) => {
            let source = frame.timed_on;
            OnTheLine {
                on: true,
                timed_on: plain_source(source),
                heard: frame.heard,
            }
        }
    }
}

fn line_of(core: PlainCore) -> Line
    ensures { result ≡ line_of core }
{
    let since = core.idle_since;
    Line {
        int_raw: core.int_raw,
        rx_mistimed: source_of(core.rx_mistimed),
        idle_since: date_of(since),
        line_free_at: core.line_free_at,
    }
}

fn control_of(core: PlainCore) -> Control
    ensures { result ≡ control_of core }
{
    let words = core.words;
    let wake = core.wake;
    let down = core.powered_down_at;
    Control {
        words,
        line: line_of(core),
        period: core.period,
        last: core.last,
        wake: date_of(wake),
        watched: core.watched,
        powered_down_at: date_of(down),
        level: core.level,
    }
}

// The core that plain numbers stand for.
pub fn core_of(core: PlainCore) -> Core
    ensures { result ≡ core_of core }
{
    let map = core.map;
    let flight = core.flight;
    let tx = core.tx;
    let host = core.host;
    let runs = core.runs;
    let rx = core.rx;
    Core {
        map,
        control: control_of(core),
        receiving: receiving_of(core.on_the_line, core.timed_on, core.heard),
        byte: core.byte,
        flight,
        tx,
        host,
        runs,
        rx,
    }
}

pub fn plain_core(core: Core) -> PlainCore
    ensures { result ≡ plain_core core }
{
    let map = core.map;
    let control = core.control;
    let words = control.words;
    let line = control.line;
    let source = line.rx_mistimed;
    let since = line.idle_since;
    let wake = control.wake;
    let down = control.powered_down_at;
    let receiving = core.receiving;
    let on = on_the_line(receiving);
    let flight = core.flight;
    let tx = core.tx;
    let host = core.host;
    let runs = core.runs;
    let rx = core.rx;
    PlainCore {
        map,
        words,
        int_raw: line.int_raw,
        rx_mistimed: plain_source(source),
        idle_since: plain_date(since),
        line_free_at: line.line_free_at,
        period: control.period,
        last: control.last,
        wake: plain_date(wake),
        powered_down_at: plain_date(down),
        timed_on: on.timed_on,
        on_the_line: on.on,
        heard: on.heard,
        watched: control.watched,
        level: control.level,
        flight,
        tx,
        host,
        runs,
        rx,
        byte: core.byte,
    }
}
