// Half bits, bit, byte and timeout times, periods and sources.
ghost use Rattle.std.specs.Prelude.{◌≤◌};
ghost use Rattle.model.specs.Tests.{period_limit};

use crate::show;
use model::{Source, Words};
use std::io;

// Document 01's bench settings.
fn bench() -> Words {
    Words {
        int_ena: 0,
        clkdiv: 0x0080_000A,
        conf0: 0x1C,
        conf1: 0xC060,
        clk_conf: 0x0230_0000,
        idle_conf: 0,
        rs485_conf: 0,
        at_cmd_char: 0,
        mem_conf: 0x000A_0012,
    }
}

fn with_times(mut w: Words, clkdiv: u32, conf0: u32, clk_conf: u32, mem_conf: u32) -> Words {
    w.clkdiv = clkdiv;
    w.conf0 = conf0;
    w.clk_conf = clk_conf;
    w.mem_conf = mem_conf;
    w
}

fn half_bits(rt: &HostRuntime, conf0: u32) -> io::Result<()> {
    show::text(rt, b"half bits")?;
    show::word(rt, conf0)?;
    show::text(rt, b" =")?;
    show::number(rt, timing::frame_half_bits(conf0))?;
    show::text(rt, b"\n")
}

fn source_name(rt: &HostRuntime, s: Source) -> io::Result<()> {
    match s {
        Source::None => show::text(rt, b" -"),
        Source::Sel0 => show::text(rt, b" 0"),
        Source::Sel2 => show::text(rt, b" 2"),
    }
}

// Half bit, bit, byte and timeout time of some words at a period, at most 1,000,000.
fn times_at(rt: &HostRuntime, w: Words, period: u64) -> io::Result<()>
    requires { period ≤ period_limit }
{
    show::text(rt, b"times")?;
    show::number(rt, period)?;
    show::text(rt, b" =")?;
    show::number(rt, timing::half_bit_time(w, period))?;
    show::number(rt, timing::bit_time(w, period))?;
    show::number(rt, timing::byte_time(w, period))?;
    show::number(rt, timing::timeout_time(w, period))?;
    show::text(rt, b"\n")
}

fn source(rt: &HostRuntime, clk_conf: u32) -> io::Result<()> {
    show::text(rt, b"source")?;
    show::word(rt, clk_conf)?;
    show::text(rt, b" =")?;
    show::number(rt, timing::source::source_period(clk_conf, 9))?;
    source_name(rt, timing::source::unmodelled_source(clk_conf))?;
    show::text(rt, b"\n")
}

// What the receiver reads of some words.
fn settings_at(rt: &HostRuntime, w: Words) -> io::Result<()> {
    let s = timing::settings(w, 8);
    show::text(rt, b"settings =")?;
    show::number(rt, s.byte_time)?;
    show::number(rt, s.timeout_time)?;
    let from = s.source;
    source_name(rt, from)?;
    show::truth(rt, s.rx_sclk_en)?;
    show::truth(rt, s.rx_tout_en)?;
    show::truth(rt, s.rxfifo_rst)?;
    show::truth(rt, s.dis_rx_dat_ovf)?;
    show::text(rt, b"\n")
}

// P1 and P2, and document 01's other stop codes.
pub(crate) fn marked(rt: &HostRuntime) -> io::Result<()> {
    half_bits(rt, 0)?;
    half_bits(rt, 0x1C)?;
    half_bits(rt, 0x2C)?;
    half_bits(rt, 0x3E)?;
    half_bits(rt, 0x0C)?;
    half_bits(rt, 0xFFFF_FFFF)?;
    times_at(rt, bench(), 8)?;
    settings_at(rt, bench())
}

// A divider of 0; the smallest and the largest times, by the crystal and by APB.
pub(crate) fn edges(rt: &HostRuntime) -> io::Result<()> {
    let b = bench();
    times_at(rt, with_times(b, 0, 0x1C, 0x0230_0000, 0x000A_0012), 8)?;
    times_at(
        rt,
        with_times(b, 0x0010_0000, 0, 0x0010_0000, 0x0001_0000),
        1,
    )?;
    times_at(
        rt,
        with_times(b, 0xFFFF_FFFF, 0xFFFF_FFFF, 0xFFFF_FFFF, 0xFFFF_FFFF),
        1000000,
    )?;
    times_at(
        rt,
        with_times(b, 0xFFFF_FFFF, 0xFFFF_FFFF, 0x001F_F000, 0xFFFF_FFFF),
        1000000,
    )?;
    settings_at(
        rt,
        with_times(b, 0x0080_000A, 0x0002_001C, 0x0200_0000, 0x000A_0012),
    )?;
    source(rt, 0)?;
    source(rt, 0x0010_0000)?;
    source(rt, 0x0020_0000)?;
    source(rt, 0x0030_0000)?;
    source(rt, 0xFFFF_FFFF)
}
