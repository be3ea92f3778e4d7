// A pass on the line: the first thing due by a date. Dates in subcycles.
ghost use Rattle.std.specs.Prelude.{◌≡◌};
ghost use Rattle.model.specs.Numbers.{due_by};
ghost use Rattle.model.specs.Line.{timeout_at};
ghost use Rattle.line.specs.Moves.{resting as Moves·resting, timing_out};
ghost use Rattle.line.specs.Moves.{landing as Moves·landing, in_frame};
ghost use Rattle.line.specs.Moves.{idle as Moves·idle, move};
ghost use Rattle.line.specs.Begins.{kept as Begins·kept, started as Begins·started};
ghost use Rattle.line.specs.Begins.{line_free as Begins·line_free, begun as Begins·begun};

use crate::{Found, Move, Receiving, idle};
use model::{Date, Frame, Line, Settings};

// Nothing is due.
fn rest(started: bool, receiving: Receiving, line: Line) -> Move
    ensures { result ≡ Moves·resting started receiving line }
{
    Move {
        line,
        receiving,
        found: Found::NothingDue,
        started,
    }
}

fn time_out(
    settings: Settings,
    held: usize,
    started: bool,
    receiving: Receiving,
    line: Line,
) -> Move
    ensures { result ≡ timing_out settings held started receiving line }
{
    Move {
        line: idle::time_out(settings, held, line),
        receiving,
        found: Found::TimedOut,
        started,
    }
}

fn land(settings: Settings, held: usize, started: bool, f: Frame, line: Line) -> Move
    ensures { result ≡ Moves·landing settings held started f line }
{
    let fate = crate::frame::fate(settings, held, f);
    Move {
        line: crate::frame::land(settings, fate, f, line),
        receiving: None,
        found: Found::Landed(fate),
        started,
    }
}

// Whether the timeout of the open idle line has come by a date.
fn timeout_due(settings: Settings, date: u64, line: Line) -> bool
    ensures { result ≡ due_by date (timeout_at settings line) }
{
    idle::due_by(date, idle::timeout_at(settings, line))
}

// With a byte on the line a timeout that is due is taken before the landing.
fn in_frame(settings: Settings, held: usize, date: u64, started: bool, f: Frame, line: Line) -> Move
    ensures { result ≡ in_frame settings held date started f line }
{
    if timeout_due(settings, date, line) {
        return time_out(settings, held, started, Some(f), line);
    }
    if date < line.line_free_at {
        return rest(started, Some(f), line);
    }
    land(settings, held, started, f, line)
}

// What is on the line once a start that is due has come, and whether one has.
#[derive(Clone, Copy)]
pub struct FrameStart {
    pub receiving: Receiving,
    pub started: bool,
    pub line: Line,
}

// No byte starts.
fn keep(receiving: Receiving, line: Line) -> FrameStart
    ensures { result ≡ Begins·kept receiving line }
{
    FrameStart {
        receiving,
        started: false,
        line,
    }
}

// A waiting host byte starts at its date once that has come, unless a timeout dated at or before it comes first.
fn start(settings: Settings, date: u64, at: u64, line: Line) -> FrameStart
    ensures { result ≡ Begins·started settings date at line }
{
    if date < at {
        return keep(None, line);
    }
    if timeout_due(settings, at, line) {
        return keep(None, line);
    }
    let f = crate::frame::frame(settings);
    let after = crate::frame::start(settings, at, line);
    FrameStart {
        receiving: Some(f),
        started: true,
        line: after,
    }
}

fn line_free(settings: Settings, date: u64, waiting: Date, line: Line) -> FrameStart
    ensures { result ≡ Begins·line_free settings date waiting line }
{
    match waiting {
        None => keep(None, line),
        Some(run) => start(settings, date, dates::later(run, line.line_free_at), line),
    }
}

// The next host byte starts where its start is due and no byte is on the line.
fn begin(
    settings: Settings,
    date: u64,
    waiting: Date,
    receiving: Receiving,
    line: Line,
) -> FrameStart
    ensures { result ≡ Begins·begun settings date waiting receiving line }
{
    match receiving {
        None => line_free(settings, date, waiting, line),
        Some(f) => keep(Some(f), line),
    }
}

// With no byte on the line only the timeout can come.
fn idle(settings: Settings, held: usize, date: u64, line: Line) -> Move
    ensures { result ≡ Moves·idle settings held date line }
{
    if timeout_due(settings, date, line) {
        time_out(settings, held, false, None, line)
    } else {
        rest(false, None, line)
    }
}

// What the first thing due on the line by a date does, where so many bytes are held and the first run of waiting host
// bytes has a date: uart.rs's take_next_on_the_line. A start comes first, so that a frame is looked at in one place.
pub fn take_next_on_the_line(
    settings: Settings,
    held: usize,
    date: u64,
    waiting: Date,
    receiving: Receiving,
    line: Line,
) -> Move
    ensures { result ≡ move settings held date waiting receiving line }
{
    let b = begin(settings, date, waiting, receiving, line);
    let on = b.receiving;
    let after = b.line;
    match on {
        None => idle(settings, held, date, after),
        Some(f) => in_frame(settings, held, date, b.started, f, after),
    }
}
