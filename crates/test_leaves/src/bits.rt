// Every field of a word of all ones, and of the word with only the field's own bits.
use crate::show;
use std::io;

fn row(rt: &HostRuntime, name: &[u8], ones: u32, own: u32, others: u32) -> io::Result<()> {
    show::text(rt, name)?;
    show::text(rt, b" =")?;
    show::word(rt, ones)?;
    show::word(rt, own)?;
    show::word(rt, others)?;
    show::text(rt, b"\n")
}

fn bit_row(rt: &HostRuntime, name: &[u8], own: bool, others: bool) -> io::Result<()> {
    show::text(rt, name)?;
    show::text(rt, b" =")?;
    show::truth(rt, own)?;
    show::truth(rt, others)?;
    show::text(rt, b"\n")
}

// All ones; its own bits alone; all but its own bits.
pub(crate) fn all_ones(rt: &HostRuntime) -> io::Result<()> {
    let w: u32 = 0xFFFF_FFFF;
    row(
        rt,
        b"PARITY_EN",
        registers::fields::parity_en(w),
        registers::fields::parity_en(0x2),
        registers::fields::parity_en(0xFFFF_FFFD),
    )?;
    row(
        rt,
        b"BIT_NUM",
        registers::fields::bit_num(w),
        registers::fields::bit_num(0xC),
        registers::fields::bit_num(0xFFFF_FFF3),
    )?;
    row(
        rt,
        b"STOP_BIT_NUM",
        registers::fields::stop_bit_num(w),
        registers::fields::stop_bit_num(0x30),
        registers::fields::stop_bit_num(0xFFFF_FFCF),
    )?;
    row(
        rt,
        b"RXFIFO_FULL_THRHD",
        registers::fields::rxfifo_full_thrhd(w),
        registers::fields::rxfifo_full_thrhd(0x1FF),
        registers::fields::rxfifo_full_thrhd(0xFFFF_FE00),
    )?;
    row(
        rt,
        b"TXFIFO_EMPTY_THRHD",
        registers::fields::txfifo_empty_thrhd(w),
        registers::fields::txfifo_empty_thrhd(0x3_FE00),
        registers::fields::txfifo_empty_thrhd(0xFFFC_01FF),
    )?;
    row(
        rt,
        b"CLKDIV",
        registers::fields::clkdiv_integer(w),
        registers::fields::clkdiv_integer(0xFFF),
        registers::fields::clkdiv_integer(0xFFFF_F000),
    )?;
    row(
        rt,
        b"CLKDIV_FRAG",
        registers::fields::clkdiv_frag(w),
        registers::fields::clkdiv_frag(0xF0_0000),
        registers::fields::clkdiv_frag(0xFF0F_FFFF),
    )?;
    row(
        rt,
        b"SCLK_DIV_NUM",
        registers::fields::sclk_div_num(w),
        registers::fields::sclk_div_num(0xF_F000),
        registers::fields::sclk_div_num(0xFFF0_0FFF),
    )?;
    row(
        rt,
        b"SCLK_SEL",
        registers::fields::sclk_sel(w),
        registers::fields::sclk_sel(0x30_0000),
        registers::fields::sclk_sel(0xFFCF_FFFF),
    )?;
    row(
        rt,
        b"RX_TOUT_THRHD",
        registers::fields::rx_tout_thrhd(w),
        registers::fields::rx_tout_thrhd(0x3FF_0000),
        registers::fields::rx_tout_thrhd(0xFC00_FFFF),
    )?;
    row(
        rt,
        b"RX_SIZE, TX_SIZE",
        registers::fields::fifo_sizes(w),
        registers::fields::fifo_sizes(0x12),
        registers::fields::fifo_sizes(0xFFFF_FF81),
    )
}

// The bit alone, and all bits but it.
pub(crate) fn single_bits(rt: &HostRuntime) -> io::Result<()> {
    bit_row(
        rt,
        b"RXFIFO_RST",
        registers::fields::rxfifo_rst(0x2_0000),
        registers::fields::rxfifo_rst(0xFFFD_FFFF),
    )?;
    bit_row(
        rt,
        b"TXFIFO_RST",
        registers::fields::txfifo_rst(0x4_0000),
        registers::fields::txfifo_rst(0xFFFB_FFFF),
    )?;
    bit_row(
        rt,
        b"DIS_RX_DAT_OVF",
        registers::fields::dis_rx_dat_ovf(0x4_0000),
        registers::fields::dis_rx_dat_ovf(0xFFFB_FFFF),
    )?;
    bit_row(
        rt,
        b"RX_FLOW_EN",
        registers::fields::rx_flow_en(0x10_0000),
        registers::fields::rx_flow_en(0xFFEF_FFFF),
    )?;
    bit_row(
        rt,
        b"RX_TOUT_EN",
        registers::fields::rx_tout_en(0x20_0000),
        registers::fields::rx_tout_en(0xFFDF_FFFF),
    )?;
    bit_row(
        rt,
        b"RX_SCLK_EN",
        registers::fields::rx_sclk_en(0x200_0000),
        registers::fields::rx_sclk_en(0xFDFF_FFFF),
    )
}
