// The fields of the registers, by shifts and masks, each in a function of its own. What a field is for is carried over from
// inkemu's uart.rs and changed.
ghost use Rattle.std.specs.Prelude.{◌≡◌, ◌<◌};
ghost use Rattle.model.specs.Numbers.{field, bit};

// The field of `width` bits that starts at bit `low`.
fn field_at(word: u32, low: u32, width: u32) -> u32
    requires { (low < 32) × (width < 32) }
    ensures { result ≡ field low width word }
{
    (word >> low) & ((1 << width) - 1)
}

// Whether bit `n` is set.
pub fn bit_at(word: u32, n: u32) -> bool
    requires { n < 32 }
    ensures { result ≡ bit n word }
{
    (word >> n) & 1 == 1
}

// CONF0 bit 1 PARITY_EN: 1 adds a parity bit to the frame.
pub fn parity_en(conf0: u32) -> u32
    ensures { result ≡ field 1 1 conf0 }
{
    field_at(conf0, 1, 1)
}

// CONF0 bits 2-3 BIT_NUM: the frame has 5 + BIT_NUM data bits.
pub fn bit_num(conf0: u32) -> u32
    ensures { result ≡ field 2 2 conf0 }
{
    field_at(conf0, 2, 2)
}

// CONF0 bits 4-5 STOP_BIT_NUM: 1, 2 and 3 are 1, 1.5 and 2 stop bits; 0 is the code of none.
pub fn stop_bit_num(conf0: u32) -> u32
    ensures { result ≡ field 4 2 conf0 }
{
    field_at(conf0, 4, 2)
}

// CONF0 bit 17 RXFIFO_RST: empties the receive FIFO, and a byte that lands while it is set is lost. Drivers pulse it.
pub fn rxfifo_rst(conf0: u32) -> bool
    ensures { result ≡ bit 17 conf0 }
{
    bit_at(conf0, 17)
}

// CONF0 bit 18 TXFIFO_RST: empties the transmit FIFO. The byte in the shift register is on the wire already and goes on.
pub fn txfifo_rst(conf0: u32) -> bool
    ensures { result ≡ bit 18 conf0 }
{
    bit_at(conf0, 18)
}

// CONF1 bits 0-8 RXFIFO_FULL_THRHD, in bytes: RXFIFO_FULL needs more than so many.
pub fn rxfifo_full_thrhd(conf1: u32) -> u32
    ensures { result ≡ field 0 9 conf1 }
{
    field_at(conf1, 0, 9)
}

// CONF1 bits 9-17 TXFIFO_EMPTY_THRHD, in bytes: TXFIFO_EMPTY needs fewer than so many.
pub fn txfifo_empty_thrhd(conf1: u32) -> u32
    ensures { result ≡ field 9 9 conf1 }
{
    field_at(conf1, 9, 9)
}

// CONF1 bit 18 DIS_RX_DAT_OVF: an overflow of the receive FIFO is not detected, so RXFIFO_OVF stays.
pub fn dis_rx_dat_ovf(conf1: u32) -> bool
    ensures { result ≡ bit 18 conf1 }
{
    bit_at(conf1, 18)
}

// CONF1 bit 20 RX_FLOW_EN: RTS flow control of the receiver, refused by name, since the host sends at its own pace.
pub fn rx_flow_en(conf1: u32) -> bool
    ensures { result ≡ bit 20 conf1 }
{
    bit_at(conf1, 20)
}

// CONF1 bit 21 RX_TOUT_EN: the receive timeout raises its bit.
pub fn rx_tout_en(conf1: u32) -> bool
    ensures { result ≡ bit 21 conf1 }
{
    bit_at(conf1, 21)
}

// CLKDIV bits 0-11: the whole part of the divider.
pub fn clkdiv_integer(clkdiv: u32) -> u32
    ensures { result ≡ field 0 12 clkdiv }
{
    field_at(clkdiv, 0, 12)
}

// CLKDIV bits 20-23: its fraction, in sixteenths. 0x30015B is 347 + 3/16.
pub fn clkdiv_frag(clkdiv: u32) -> u32
    ensures { result ≡ field 20 4 clkdiv }
{
    field_at(clkdiv, 20, 4)
}

// CLK_CONF bits 12-19 SCLK_DIV_NUM: the divider of the source clock, minus one.
pub fn sclk_div_num(clk_conf: u32) -> u32
    ensures { result ≡ field 12 8 clk_conf }
{
    field_at(clk_conf, 12, 8)
}

// CLK_CONF bits 20-21 SCLK_SEL: 1 is APB_CLK, 3 the crystal, as at reset. 2 selects the RC fast clock and 0 has no documented
// source: the model has no frequency for either.
pub fn sclk_sel(clk_conf: u32) -> u32
    ensures { result ≡ field 20 2 clk_conf }
{
    field_at(clk_conf, 20, 2)
}

// CLK_CONF bit 25 RX_SCLK_EN: the receiver's clock; a byte that starts or lands while it is clear is lost.
pub fn rx_sclk_en(clk_conf: u32) -> bool
    ensures { result ≡ bit 25 clk_conf }
{
    bit_at(clk_conf, 25)
}

// MEM_CONF bits 16-25 RX_TOUT_THRHD: the receive timeout, in bit times.
pub fn rx_tout_thrhd(mem_conf: u32) -> u32
    ensures { result ≡ field 16 10 mem_conf }
{
    field_at(mem_conf, 16, 10)
}

// MEM_CONF bits 1-3 RX_SIZE and 4-6 TX_SIZE: how many blocks of 128 bytes each FIFO has. Both are 1 at reset; another size is
// refused by name.
pub fn fifo_sizes(mem_conf: u32) -> u32
    ensures { result ≡ field 1 6 mem_conf }
{
    field_at(mem_conf, 1, 6)
}
