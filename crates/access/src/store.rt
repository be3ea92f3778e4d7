// What a write at a place other than FIFO does once the UART is settled.
ghost use Rattle.std.specs.Prelude.{◌≡◌, Ok, true, false};
ghost use Rattle.model.specs.Numbers.{choose};
ghost use Rattle.model.specs.Registers.{write_register};
ghost use Rattle.model.specs.Names.{Write};
ghost use Rattle.registers.specs.Places.{register_at};
ghost use Rattle.registers.specs.Storage.{held_at};
ghost use Rattle.queue.specs.Cursors.{empty, cut_to_one};
ghost use Rattle.device.specs.Holds.{Arrays, abs, Shape};
ghost use Rattle.calls.specs.Answers.{Accesses};
ghost use Rattle.access.specs.Writes.{stored_in, cleared_in, reset_fifos_of};

use device::Core;
use model::Write;
use queue::Cursor;
use registers::places::Place;
use registers::words;
use replies::notices::Notices;

// A core after a write, whether the write is accepted, and its notices.
#[derive(Clone, Copy)]
pub struct PlaceWrite {
    pub core: Core,
    pub reply: Write,
    pub notices: Notices,
}

// A place that Storage does not hold is read-only or unknown.
fn accepted(held: bool) -> Write
    ensures { result ≡ choose held (Ok true) (Ok false) }
{
    if held { Ok(true) } else { Ok(false) }
}

fn store(mut core: Core, place: Place, value: u32) -> PlaceWrite
    ensures { result ≡ stored_in (held_at place) value core }
{
    let mut control = core.control;
    let put = registers::storage::write(control.words, place, value);
    let words = put.words;
    control.words = words;
    core.control = control;
    let reply = accepted(put.accepted);
    let notices = replies::modes::stored_notices(place, value);
    PlaceWrite {
        core,
        reply,
        notices,
    }
}

// A write to INT_CLR.
fn clear_interrupts(mut core: Core, value: u32) -> PlaceWrite
    ensures { result ≡ cleared_in value core }
{
    let mut control = core.control;
    let mut line = control.line;
    line.int_raw = words::int_clr(line.int_raw, value);
    control.line = line;
    core.control = control;
    let notices = replies::notices::none();
    PlaceWrite {
        core,
        reply: Ok(true),
        notices,
    }
}

fn cut_if(flight: Cursor, yes: bool) -> Cursor
    ensures { result ≡ choose yes (cut_to_one flight) flight }
{
    let cut = flight.cut_to_one();
    if yes { cut } else { flight }
}

fn empty_if(rx: Cursor, yes: bool) -> Cursor
    ensures { result ≡ choose yes empty rx }
{
    let none = Cursor::new();
    if yes { none } else { rx }
}

// TXFIFO_RST keeps the byte in the shift register; RXFIFO_RST empties the receive FIFO.
fn reset_fifos(mut core: Core, conf0: u32) -> Core
    ensures { result ≡ reset_fifos_of conf0 core }
{
    let tx_reset = registers::fields::txfifo_rst(conf0);
    let rx_reset = registers::fields::rxfifo_rst(conf0);
    let flight = cut_if(core.flight, tx_reset);
    let rx = empty_if(core.rx, rx_reset);
    core.flight = flight;
    core.rx = rx;
    core
}

pub fn write_place(core: Core, place: Place, value: u32) -> PlaceWrite
    ensures { (a : Arrays) → Shape core a → Accesses (λ x. x) (write_register (register_at place) value
        (abs core a)) result.core a result.reply result.notices }
{
    match place {
        Place::IntClr => clear_interrupts(core, value),
        Place::Conf0 => {
            let reset = reset_fifos(core, value);
            store(reset, place, value)
        }
        _ => store(core, place, value),
    }
}
