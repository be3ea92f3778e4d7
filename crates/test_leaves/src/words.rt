// Storage, place by place: what a write stores and a read gives back.
ghost use Rattle.std.specs.Prelude.{◌≡◌};

use crate::show;
use model::{Read, Words};
use registers::places::Place;
use std::io;

fn zeros() -> Words {
    Words {
        int_ena: 0,
        clkdiv: 0,
        conf0: 0,
        conf1: 0,
        clk_conf: 0,
        idle_conf: 0,
        rs485_conf: 0,
        at_cmd_char: 0,
        mem_conf: 0,
    }
}

fn value(rt: &HostRuntime, r: Read) -> io::Result<()> {
    match r {
        Ok(Some(v)) => show::word(rt, v),
        Ok(None) => show::text(rt, b" -"),
        Err(_) => show::text(rt, b" refused"),
    }
}

// All ones written at a place of zeros: accepted, what is read there, and the sum of all nine words, so that one word and no
// other is seen to change.
fn place(rt: &HostRuntime, name: &[u8], at: Place) -> io::Result<()> {
    let s = registers::storage::write(zeros(), at, 0xFFFF_FFFF);
    show::text(rt, name)?;
    show::text(rt, b" =")?;
    show::truth(rt, s.accepted)?;
    let w = s.words;
    value(rt, registers::storage::read(w, at))?;
    show::number(rt, sum(w))?;
    show::text(rt, b"\n")
}

fn wide(x: u32) -> u64
    ensures { result ≡ x }
{
    x as u64
}

fn sum(w: Words) -> u64 {
    let low = wide(w.int_ena) + wide(w.clkdiv) + wide(w.conf0) + wide(w.conf1) + wide(w.clk_conf);
    low + wide(w.idle_conf) + wide(w.rs485_conf) + wide(w.at_cmd_char) + wide(w.mem_conf)
}

pub(crate) fn places(rt: &HostRuntime) -> io::Result<()> {
    place(rt, b"FIFO", Place::Fifo)?;
    place(rt, b"INT_RAW", Place::IntRaw)?;
    place(rt, b"INT_ST", Place::IntSt)?;
    place(rt, b"INT_ENA", Place::IntEna)?;
    place(rt, b"INT_CLR", Place::IntClr)?;
    place(rt, b"CLKDIV", Place::Clkdiv)?;
    place(rt, b"STATUS", Place::Status)?;
    place(rt, b"FSM_STATUS", Place::FsmStatus)?;
    place(rt, b"CONF0", Place::Conf0)?;
    place(rt, b"CONF1", Place::Conf1)?;
    place(rt, b"CLK_CONF", Place::ClkConf)?;
    place(rt, b"IDLE_CONF", Place::IdleConf)?;
    place(rt, b"RS485_CONF", Place::Rs485Conf)?;
    place(rt, b"AT_CMD_CHAR", Place::AtCmdChar)?;
    place(rt, b"MEM_CONF", Place::MemConf)?;
    place(rt, b"MEM_RX_STATUS", Place::MemRxStatus)?;
    place(rt, b"unknown", Place::Unknown)
}
