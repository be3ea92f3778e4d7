// Line timing: how long a bit, a byte and the receive timeout last, in subcycles.
// Carried over from inkemu's uart.rs and changed.
#![tactic(auto)]

pub mod clock;
pub mod source;

ghost use Rattle.std.specs.Prelude.{◌≡◌, ◌≤◌};
ghost use Rattle.model.specs.Timing.{stop_half_bits, frame_half_bits};
ghost use Rattle.model.specs.Timing.{divider as Timing·divider, source_divider};
ghost use Rattle.model.specs.Timing.{half_bit_time, bit_time, byte_time, timeout_time};
ghost use Rattle.model.specs.Timing.{settings as Timing·settings};
ghost use Rattle.model.specs.Tests.{period_limit};

use model::{Settings, Words};

// Codes 0 and 1 count 2 half bits, 2 counts 3, 3 counts 4.
// ASSUMPTION: code 0, which no source defines, lasts one stop bit; it is refused by name when written. A frame timed on a chip
// set that way settles it.
fn stop_half_bits(code: u32) -> u64
    ensures { result ≡ stop_half_bits code }
{
    match code {
        0..=1 => 2,
        2 => 3,
        _ => 4,
    }
}

// A frame in half bit times: a start bit, the data bits, the parity bit, the stop bits.
pub fn frame_half_bits(conf0: u32) -> u64
    ensures { result ≡ frame_half_bits conf0 }
{
    let data = u64::from(registers::fields::bit_num(conf0));
    let parity = u64::from(registers::fields::parity_en(conf0));
    let stop = stop_half_bits(registers::fields::stop_bit_num(conf0));
    2 * (1 + (5 + data) + parity) + stop
}

// CLKDIV in sixteenths.
// ASSUMPTION: the divider is what the register holds, down to 0: with CLKDIV 0 a byte takes no time. No source says what the chip
// does below a divider of 1; a byte timed on a chip with CLKDIV 0 settles it.
fn divider(clkdiv: u32) -> u64
    ensures { result ≡ Timing·divider clkdiv }
{
    let integer = u64::from(registers::fields::clkdiv_integer(clkdiv));
    let frag = u64::from(registers::fields::clkdiv_frag(clkdiv));
    16 * integer + frag
}

fn source_divider(clk_conf: u32) -> u64
    ensures { result ≡ source_divider clk_conf }
{
    u64::from(registers::fields::sclk_div_num(clk_conf)) + 1
}

// Half a bit, in subcycles.
pub fn half_bit_time(w: Words, period: u64) -> u64
    requires { period ≤ period_limit }
    ensures { result ≡ half_bit_time w period }
{
    let clk_conf = w.clk_conf;
    let by = divider(w.clkdiv);
    let source_by = source_divider(clk_conf);
    let source = crate::source::source_period(clk_conf, period);
    by * source_by * source
}

// A bit, in subcycles.
pub fn bit_time(w: Words, period: u64) -> u64
    requires { period ≤ period_limit }
    ensures { result ≡ bit_time w period }
{
    2 * half_bit_time(w, period)
}

// A byte, in subcycles.
pub fn byte_time(w: Words, period: u64) -> u64
    requires { period ≤ period_limit }
    ensures { result ≡ byte_time w period }
{
    frame_half_bits(w.conf0) * half_bit_time(w, period)
}

// The receive timeout, in subcycles.
pub fn timeout_time(w: Words, period: u64) -> u64
    requires { period ≤ period_limit }
    ensures { result ≡ timeout_time w period }
{
    u64::from(registers::fields::rx_tout_thrhd(w.mem_conf)) * bit_time(w, period)
}

// What the receiver reads of the registers and the clock.
pub fn settings(w: Words, period: u64) -> Settings
    requires { period ≤ period_limit }
    ensures { result ≡ Timing·settings w period }
{
    Settings {
        byte_time: byte_time(w, period),
        timeout_time: timeout_time(w, period),
        source: crate::source::unmodelled_source(w.clk_conf),
        rx_sclk_en: registers::fields::rx_sclk_en(w.clk_conf),
        rx_tout_en: registers::fields::rx_tout_en(w.conf1),
        rxfifo_rst: registers::fields::rxfifo_rst(w.conf0),
        dis_rx_dat_ovf: registers::fields::dis_rx_dat_ovf(w.conf1),
    }
}
