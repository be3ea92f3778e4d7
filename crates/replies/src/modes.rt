// What a stored word notes: the modes of CONF0 and three other registers that are refused by name. Which access notes what is
// carried over from inkemu's uart.rs and changed.
ghost use Rattle.std.specs.Prelude.{◌≡◌, [], ◌<◌};
ghost use Rattle.model.specs.Numbers.{bit};
ghost use Rattle.model.specs.Registers.{note_if, conf0_notes};
ghost use Rattle.registers.specs.Storage.{held_at};
ghost use Rattle.replies.specs.Notices.{added_if, noted};
ghost use Rattle.replies.specs.Modes.{notes_at, low_modes};

use crate::notices::{Notices, none};
use model::{Feature, Unsupported};
use registers::places::Place;

// MEM_CONF's RX_SIZE and TX_SIZE at one block each.
const ONE_BLOCK_EACH: u32 = 9;

// A mode of CONF0 that is refused by name where its bit is set.
fn refuse_mode(others: Notices, conf0: u32, n: u32, mode: Feature) -> Notices
    requires { n < 32 }
    ensures { result ≡ added_if (bit n conf0) (Unsupported.UartFeature mode) others }
{
    let set = registers::fields::bit_at(conf0, n);
    others.note_if(set, Unsupported::UartFeature(mode))
}

// One mode alone, refused by name where it is set.
fn refuse_if(test: bool, mode: Feature) -> Notices
    ensures { result ≡ noted (note_if test (Unsupported.UartFeature mode) []) }
{
    none().note_if(test, Unsupported::UartFeature(mode))
}

// The first four modes of CONF0 that are refused by name, in the order of their bits: a break after the data, loopback, CTS flow control,
// infrared framing. Each would change the bytes on the line or their timing, and no console sets one.
fn low_modes(value: u32) -> Notices
    ensures { result ≡ low_modes value (noted []) }
{
    let broken = refuse_mode(none(), value, 8, Feature::TxBreak);
    let looped = refuse_mode(broken, value, 14, Feature::Loopback);
    let held = refuse_mode(looped, value, 15, Feature::TxFlowControl);
    refuse_mode(held, value, 16, Feature::Irda)
}

// The other three behind them, an inverted receive line, an inverted transmit line and autobaud, and then a stop code of 0.
fn conf0_notices(value: u32) -> Notices
    ensures { result ≡ noted (conf0_notes value) }
{
    let no_stop_bit = registers::fields::stop_bit_num(value) == 0;
    let low = low_modes(value);
    let rx = refuse_mode(low, value, 19, Feature::InvertedRx);
    let tx = refuse_mode(rx, value, 22, Feature::InvertedTx);
    let baud = refuse_mode(tx, value, 27, Feature::Autobaud);
    baud.note_if(no_stop_bit, Unsupported::UartFeature(Feature::NoStopBit))
}

// What a stored word gives: CONF1's RX_FLOW_EN, an RS485_CONF other than 0, FIFO sizes other than one block each.
pub fn stored_notices(place: Place, value: u32) -> Notices
    ensures { result ≡ noted (notes_at (held_at place) value) }
{
    match place {
        Place::Conf0 => conf0_notices(value),
        Place::Conf1 => refuse_if(registers::fields::rx_flow_en(value), Feature::RxFlowControl),
        Place::Rs485Conf => refuse_if(value != 0, Feature::Rs485),
        Place::MemConf => refuse_if(
            registers::fields::fifo_sizes(value) != ONE_BLOCK_EACH,
            Feature::FifoSize,
        ),
        _ => none(),
    }
}
