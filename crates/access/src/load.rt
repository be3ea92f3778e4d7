// What a read gives once the UART is settled.
ghost use Rattle.std.specs.Prelude.{◌≡◌, ◌≤◌, length, None};
ghost use Rattle.model.specs.Setters.{with_mistimed};
ghost use Rattle.model.specs.Numbers.{choose};
ghost use Rattle.model.specs.Replies.{as_read};
ghost use Rattle.model.specs.Registers.{read_at};
ghost use Rattle.model.specs.declared.Source.{Source};
ghost use Rattle.registers.specs.Places.{register_at};
ghost use Rattle.queue.specs.Cursors.{Held};
ghost use Rattle.device.specs.Holds.{Arrays, abs, Shape};
ghost use Rattle.calls.specs.Answers.{Accesses};
ghost use Rattle.access.specs.Reads.{word_at, forgotten_core, popped as Reads·popped};

use device::Core;
use line::levels;
use model::{Line, Read, Source};
use registers::places::Place;
use registers::{places, words};
use replies::notices::Notices;

// A core after a read, its value and its notices.
#[derive(Clone, Copy)]
pub struct PlaceRead {
    pub core: Core,
    pub reply: Read,
    pub notices: Notices,
}

fn with_mistimed(line: Line, rx_mistimed: Source) -> Line
    ensures { result ≡ with_mistimed rx_mistimed line }
{
    let idle_since = line.idle_since;
    Line {
        int_raw: line.int_raw,
        rx_mistimed,
        idle_since,
        line_free_at: line.line_free_at,
    }
}

// A mistimed reception is forgotten where the firmware is told of it.
fn forget_mistimed(mut core: Core, looks: bool) -> Core
    ensures { result ≡ choose looks (forgotten_core core) core }
{
    if looks {
        let mut control = core.control;
        let line = with_mistimed(control.line, Source::None);
        control.line = line;
        core.control = control;
        core
    } else {
        core
    }
}

// What the firmware is told of: a mistimed reception where it looks at the receiver.
fn mistimed_at(source: Source, looks: bool) -> Source
    ensures { result ≡ choose looks source Source.None }
{
    if looks { source } else { Source::None }
}

// The word at a place other than FIFO.
fn word_at(core: Core, place: Place) -> Read
    requires { (core.flight.count ≤ 129) × (core.rx.count ≤ 128) }
    ensures { result ≡ as_read (word_at core (register_at place)) }
{
    let control = core.control;
    let words = control.words;
    let line = control.line;
    let map = core.map;
    match place {
        Place::IntRaw => Ok(Some(line.int_raw)),
        Place::IntSt => Ok(Some(levels::int_status(line, words.int_ena))),
        Place::Status => Ok(Some(words::status_word(
            map.idle_status,
            core.flight.count,
            core.rx.count,
        ))),
        Place::FsmStatus => Ok(Some(words::fsm_status(core.flight.count))),
        Place::MemRxStatus => Ok(Some(map.mem_rx_status)),
        _ => registers::storage::read(words, place),
    }
}

// uart.rs's pop: the oldest byte received; from an empty FIFO 0, with a notice.
// ASSUMPTION: a read of an empty receive FIFO gives 0 and changes nothing. Only firmware that does not look at RXFIFO_CNT makes
// it; a chip settles it.
fn pop(mut core: Core, rx: &[u8; 128], notices: Notices) -> PlaceRead
    requires { Held 128 core.rx × (length rx.now ≡ 128) }
    ensures { result ≡ Reads·popped core rx.now notices }
{
    if 0 < core.rx.count {
        let first = core.rx.start;
        let byte = u32::from(rx[first]);
        let rest = core.rx.popped(128);
        core.rx = rest;
        PlaceRead {
            core,
            reply: Ok(Some(byte)),
            notices,
        }
    } else {
        let noted = notices.note_empty_read();
        PlaceRead {
            core,
            reply: Ok(Some(0)),
            notices: noted,
        }
    }
}

pub fn read_place(core: Core, rx: &[u8; 128], place: Place) -> PlaceRead
    requires { Held 129 core.flight × Held 128 core.rx × (length rx.now ≡ 128) }
    ensures { (a : Arrays) → a.rx ≡ rx.now → Shape core a
        → Accesses as_read (read_at (register_at place) (abs core a)) result.core a result.reply result.notices }
{
    let looks = places::looks(place);
    let control = core.control;
    let line = control.line;
    let source = line.rx_mistimed;
    let notices = replies::notices::receive_clock_notices(mistimed_at(source, looks));
    let seen = forget_mistimed(core, looks);
    match place {
        Place::Fifo => pop(seen, rx, notices),
        _ => {
            let reply = word_at(seen, place);
            PlaceRead {
                core: seen,
                reply,
                notices,
            }
        }
    }
}
