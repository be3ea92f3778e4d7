// Settling: departures, then the line pass by pass, then levels and the interrupt.
ghost use Rattle.std.specs.Prelude.{◌≡◌};
ghost use Rattle.model.specs.Settle.{settle};
ghost use Rattle.device.specs.Holds.{abs, Valid};
ghost use Rattle.device.specs.Wholes.{arrays};
ghost use Rattle.device.specs.Settles.{Settles, reception_of, together as Settles·together};

use crate::departures::Transmitter;
use crate::pass::Reception;
use crate::{Core, departures};
use model::Line;

#[repr(C)]
#[derive(Clone, Copy)]
pub struct SettleCore {
    pub core: Core,
    pub passes: u64,
    pub overflows: u64,
}

// What the passes change, with the line as the departures leave it.
fn reception(core: Core, line: Line) -> Reception
    ensures { result ≡ reception_of core line }
{
    let receiving = core.receiving;
    let host = core.host;
    let runs = core.runs;
    let rx = core.rx;
    Reception {
        line,
        receiving,
        byte: core.byte,
        host,
        runs,
        rx,
    }
}

// The core with what a settling changed.
fn together(core: Core, sent: Transmitter, at: Reception, line: Line, level: bool) -> Core
    ensures { result ≡ Settles·together core sent.flight sent.tx at line level }
{
    let map = core.map;
    let mut control = core.control;
    control.line = line;
    control.level = level;
    let receiving = at.receiving;
    let flight = sent.flight;
    let tx = sent.tx;
    let host = at.host;
    let runs = at.runs;
    let rx = at.rx;
    Core {
        map,
        control,
        receiving,
        byte: at.byte,
        flight,
        tx,
        host,
        runs,
        rx,
    }
}

pub fn settle<'a>(
    core: Core,
    gone_at: &'a [u64; 129],
    flight: &'a [u8; 129],
    tx: &'a mut [u8; 1152],
    host: &'a [u8; 1024],
    run_at: &'a [u64; 64],
    run_len: &'a mut [u64; 64],
    rx: &'a mut [u8; 128],
    cycle: u64,
) -> SettleCore
    requires { Valid core (arrays gone_at.now flight.now tx.old host.now run_at.now run_len.old rx.old) }
    ensures { Settles
        (settle cycle (abs core (arrays gone_at.now flight.now tx.old host.now run_at.now run_len.old rx.old)))
        result.core
        (arrays gone_at.now flight.now tx.new host.now run_at.now run_len.new rx.new)
        result.passes result.overflows }
{
    let control = core.control;
    let powered_down_at = control.powered_down_at;
    let date = line::levels::settling_date(cycle, powered_down_at);
    let n = departures::gone(gone_at, core.flight, date);
    let sent = departures::leave(core.flight, core.tx, n, flight, tx);
    let words = control.words;
    let before = control.line;
    let line = line::levels::tx_done(core.flight.count, sent.flight.count, before);
    let from = reception(core, line);
    let ended = crate::passes::settle_line(
        from,
        words,
        control.period,
        date,
        host,
        run_at,
        run_len,
        rx,
    );
    let at = ended.reception;
    let last = at.line;
    let leveled = line::levels::assert_levels(last, words.conf1, at.rx.count, sent.flight.count);
    let level = line::levels::level(leveled, words.int_ena);
    let settled = together(core, sent, at, leveled, level);
    SettleCore {
        core: settled,
        passes: ended.passes,
        overflows: ended.overflows,
    }
}
