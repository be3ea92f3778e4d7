// A notice in two numbers: what, in the order of model's `Unsupported` from 1 on, and which, an SCLK_SEL or a mode.
ghost use Rattle.std.specs.Prelude.{◌≡◌};
ghost use Rattle.model.specs.Replies.{mode_number};
ghost use Rattle.ffi.specs.Notes.{plain_unsupported, plain_notices, plain_all};

use model::{Feature, Notice, Unsupported};

#[repr(C)]
#[derive(Clone, Copy)]
pub struct PlainNotice {
    pub what: u32,
    pub which: u32,
}

// A mode's number: its place in model's `Feature`, from 0.
fn mode_number(mode: Feature) -> u32
    ensures { result ≡ mode_number mode }
{
    match mode {
        Feature::Loopback => 0,
        Feature::InvertedRx => 1,
        Feature::Autobaud => 2,
        Feature::NoStopBit => 3,
        Feature::FifoSize => 4,
        Feature::Rs485 => 5,
        Feature::TxFlowControl => 6,
        Feature::RxFlowControl => 7,
        Feature::InvertedTx => 8,
        Feature::Irda => 9,
        Feature::TxBreak => 10,
    }
}

fn plain_notice(notice: Notice) -> PlainNotice
    ensures { result ≡ plain_unsupported notice.what }
{
    let what = notice.what;
    match what {
        Unsupported::UartOverflow => PlainNotice { what: 1, which: 0 },
        Unsupported::UartEmptyRead => PlainNotice { what: 2, which: 0 },
        Unsupported::UartClock(sel) => PlainNotice {
            what: 3,
            which: sel,
        },
        Unsupported::UartReceiveClock(sel) => PlainNotice {
            what: 4,
            which: sel,
        },
        Unsupported::UartFeature(mode) => PlainNotice {
            what: 5,
            which: mode_number(mode),
        },
    }
}

fn all(list: [Notice; 8]) -> [PlainNotice; 8]
    ensures { result ≡ plain_all list }
{
    [
        plain_notice(list[0]),
        plain_notice(list[1]),
        plain_notice(list[2]),
        plain_notice(list[3]),
        plain_notice(list[4]),
        plain_notice(list[5]),
        plain_notice(list[6]),
        plain_notice(list[7]),
    ]
}

// Most calls note nothing.
pub fn plain_notices(list: [Notice; 8], noted: usize) -> [PlainNotice; 8]
    ensures { result ≡ plain_notices list noted }
{
    if noted == 0 {
        [PlainNotice { what: 0, which: 0 }; 8]
    } else {
        all(list)
    }
}
