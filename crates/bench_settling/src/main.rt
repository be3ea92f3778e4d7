// 1,000 host bytes that land in one settling at document 01's bench settings, and a settling with nothing due.
#![tactic(auto)]

mod show;

ghost use Rattle.std.specs.Prelude.{◌≡◌, length};
ghost use Rattle.uart.specs.Whole.{Good};

use std::io;
use uart::Uart;

// 0 to 255, again and again.
pub fn counted() -> [u8; 1000]
    ensures { length result ≡ 1000 }
{
    let mut bytes = [0u8; 1000];
    let mut i: usize = 0;
    while i < 1000 {
        bytes[i] = (i % 256) as u8;
        i = i + 1;
    }
    bytes
}

// The numbers of a UART, and the first and the last byte of its receive FIFO's slots.
fn state(rt: &HostRuntime, uart: Uart) -> io::Result<()> {
    let core = uart.core;
    crate::show::number(rt, b"host bytes left ", core.host.count as u64)?;
    crate::show::number(rt, b"runs left ", core.runs.count as u64)?;
    crate::show::number(rt, b"bytes held ", core.rx.count as u64)?;
    let rx = uart.rx;
    crate::show::number(rt, b"first byte ", crate::show::wide(rx[0]))?;
    crate::show::number(rt, b"last byte ", crate::show::wide(rx[127]))?;
    let control = core.control;
    let line = control.line;
    crate::show::number(rt, b"INT_RAW ", line.int_raw as u64)?;
    crate::show::number(rt, b"line free at subcycle ", line.line_free_at)
}

fn land(rt: &HostRuntime, new: Uart) -> io::Result<()>
    requires { Good new }
{
    let bytes = counted();
    let given = new.receive(0, 100, &bytes);
    let waiting = given.uart;
    let done = waiting.settle(500000);
    let uart = done.uart;
    let again = uart.settle(500000);
    crate::show::number(rt, b"passes ", done.passes)?;
    crate::show::number(rt, b"overflows ", done.overflows)?;
    state(rt, uart)?;
    crate::show::number(rt, b"passes again ", again.passes)
}

fn main(rt: HostRuntime) -> io::Result<()> {
    let made = Uart::new(bench_settings::OFFSETS, bench_settings::RESETS);
    let reply = made.reply;
    match reply {
        Err(_) => crate::show::number(&rt, b"set-up refused ", 1),
        Ok(()) => land(&rt, made.uart),
    }
}
