// The plain structs and enums that a UART's control and its replies are made of. What they mean stands in specs/.
// Names are uart.rs's and diag.rs's of inkemu (carried over, changed). Dates are in subcycles, 1/32 of a cycle, unless
// a line says cycles.
#![tactic(auto)]

// A date, if there is one.
pub type Date = Option<u64>;

// The SCLK_SEL that timed something though the model has no frequency for it: none, 0 or 2. No Option of an enum: by that, whose two cases
// are two values, a byte in bulk takes 277 instructions, and the bar is 238.
#[derive(Clone, Copy)]
pub enum Source {
    None,
    Sel0,
    Sel2,
}

// The nine stored words: uart.rs's CONFIG. CLKDIV and CLK_CONF set the baud rate; IDLE_CONF, RS485_CONF and AT_CMD_CHAR have no effect of
// their own.
#[repr(C)]
#[derive(Clone, Copy)]
pub struct Words {
    pub int_ena: u32,
    pub clkdiv: u32,
    pub conf0: u32,
    pub conf1: u32,
    pub clk_conf: u32,
    pub idle_conf: u32,
    pub rs485_conf: u32,
    pub at_cmd_char: u32,
    pub mem_conf: u32,
}

// What set-up fixes: sixteen offsets in the order of the places, and the reset words that are used.
#[repr(C)]
#[derive(Clone, Copy)]
pub struct RegisterMap {
    pub offsets: [u32; 16],
    pub reset: Words,
    // STATUS with both FIFO counts at zero: the bits of the line's state keep their reset value.
    pub idle_status: u32,
    // Read at its reset value: no firmware reads it.
    pub mem_rx_status: u32,
}

// What a pass on the receive line may change.
#[derive(Clone, Copy)]
pub struct Line {
    pub int_raw: u32,
    // The source without a frequency that timed what the receiver showed since the firmware last looked at it: a start bit or a
    // landing that it heard, or an enabled timeout.
    pub rx_mistimed: Source,
    // When the last byte heard landed, while the timeout of that idle line has not come: none once it came, and from a start bit that
    // is heard to its landing.
    pub idle_since: Date,
    // When the line is free for the next byte. While a byte is on the line it lands then.
    pub line_free_at: u64,
}

// How the byte on the line came: the source that timed its frame, and whether the receiver's clock ran at its start.
#[derive(Clone, Copy)]
pub struct Frame {
    pub timed_on: Source,
    pub heard: bool,
}

// All that the UART decides from: no byte is in it.
#[derive(Clone, Copy)]
pub struct Control {
    pub words: Words,
    pub line: Line,
    // The APB clock's period, in cycles.
    pub period: u64,
    // The last carried-out date, in cycles.
    pub last: u64,
    // The wake that is armed, in cycles.
    pub wake: Date,
    // The machine watches what is sent: each byte asks for a call when it has gone, not only the last.
    pub watched: bool,
    // When the chip went into deep sleep, while it sleeps: the UART has no power and goes no further.
    pub powered_down_at: Date,
    // The interrupt level last driven.
    pub level: bool,
}

// What the receiver reads of the registers and the clock. Times in subcycles.
#[derive(Clone, Copy)]
pub struct Settings {
    pub byte_time: u64,
    pub timeout_time: u64,
    pub source: Source,
    pub rx_sclk_en: bool,
    pub rx_tout_en: bool,
    pub rxfifo_rst: bool,
    pub dis_rx_dat_ovf: bool,
}

// What became of a byte that landed.
#[derive(Clone, Copy)]
pub enum Fate {
    Stored,
    // 128 bytes were held.
    Overflowed,
    // RXFIFO_RST was set.
    Cleared,
    // The receiver's clock was off at the landing.
    ClockOff,
    // The receiver's clock was off at the start.
    Unheard,
}

// The modes that the model refuses by name: diag.rs's UartFeature.
#[derive(Clone, Copy)]
pub enum Feature {
    Loopback,
    InvertedRx,
    Autobaud,
    NoStopBit,
    FifoSize,
    Rs485,
    TxFlowControl,
    RxFlowControl,
    InvertedTx,
    Irda,
    TxBreak,
}

// What a call notes besides UartRxOverflow, which is counted: diag.rs's Unsupported. A number is an SCLK_SEL.
#[derive(Clone, Copy)]
pub enum Unsupported {
    UartOverflow,
    UartEmptyRead,
    UartClock(u32),
    UartReceiveClock(u32),
    UartFeature(Feature),
}

#[derive(Clone, Copy)]
pub struct Notice {
    pub what: Unsupported,
}

// Why a call is refused; the numbers are 1 to 8 in this order.
#[derive(Clone, Copy)]
pub enum Refusal {
    RepeatedOffset,
    DatePastEnd,
    DateWentBack,
    TransmitFull,
    HostFull,
    RunsFull,
    PeriodTooLong,
    BufferTooShort,
}

// What a dated call answers beside its own result.
#[derive(Clone, Copy)]
pub struct Report {
    pub level: bool,
    // In cycles.
    pub wake: Date,
    pub overflows: u64,
    pub passes: u64,
    // The first `noted` of these, in order; the rest are fixed.
    pub notices: [Notice; 8],
    pub noted: usize,
}

// What a call answers is its own result, or why it is refused. Set-up has none of its own.
pub type SetUp = Result<(), Refusal>;

// The value at a place, or none where no word is read.
pub type Read = Result<Option<u32>, Refusal>;

// Whether the place takes what is written.
pub type Write = Result<bool, Refusal>;

// receive, wake, watch, reset, power_down and the clock change.
pub type Done = Result<(), Refusal>;

// take_tx and take_written: how many bytes stand at the front of the lent buffer.
pub type Taken = Result<usize, Refusal>;

// How many bytes of a row were written, and how often the first and the second notice of its report came.
#[derive(Clone, Copy)]
pub struct Made {
    pub count: usize,
    pub first: u64,
    pub second: u64,
}

pub type Row = Result<Made, Refusal>;
