// The notices of a report, by their names in diag.rs.
ghost use Rattle.std.specs.Prelude.{◌++◌, min, take};
ghost use Rattle.text.specs.Ascii.{ascii};
ghost use Rattle.text.specs.Output.{Put};
ghost use Rattle.text.specs.Decimal.{decimal};
ghost use Rattle.text.specs.Chains.{Room, Puts};
ghost use Rattle.answers.specs.Notices.{feature_text, notice_text, notices_text, count_text, counts_text};

use model::{Feature, Notice, Unsupported};
use text::output::put;
use text::spelling::put_decimal;

fn put_feature(out: &mut [u8], at: usize, feature: Feature) -> usize
    ensures { Put (feature_text feature) out.old at out.new result }
{
    match feature {
        Feature::Loopback => put(out, at, b"UartFeature(Loopback)"),
        Feature::InvertedRx => put(out, at, b"UartFeature(InvertedRx)"),
        Feature::Autobaud => put(out, at, b"UartFeature(Autobaud)"),
        Feature::NoStopBit => put(out, at, b"UartFeature(NoStopBit)"),
        Feature::FifoSize => put(out, at, b"UartFeature(FifoSize)"),
        Feature::Rs485 => put(out, at, b"UartFeature(Rs485)"),
        Feature::TxFlowControl => put(out, at, b"UartFeature(TxFlowControl)"),
        Feature::RxFlowControl => put(out, at, b"UartFeature(RxFlowControl)"),
        Feature::InvertedTx => put(out, at, b"UartFeature(InvertedTx)"),
        Feature::Irda => put(out, at, b"UartFeature(Irda)"),
        Feature::TxBreak => put(out, at, b"UartFeature(TxBreak)"),
    }
}

// A name with an SCLK_SEL.
fn put_source(out: &mut [u8], at: usize, name: &[u8], sclk_sel: u32) -> usize
    ensures { Puts (name.now ++ decimal sclk_sel ++ ascii ")") out.old at out.new result }
{
    let named = put(out, at, name);
    let number = put_decimal(out, named, sclk_sel as u64);
    put(out, number, b")")
}

fn put_notice(out: &mut [u8], at: usize, what: Unsupported) -> usize
    ensures { Puts (notice_text what) out.old at out.new result }
{
    match what {
        Unsupported::UartOverflow => put(out, at, b"UartOverflow"),
        Unsupported::UartEmptyRead => put(out, at, b"UartEmptyRead"),
        Unsupported::UartClock(sclk_sel) => put_source(out, at, b"UartClock(", sclk_sel),
        Unsupported::UartReceiveClock(sclk_sel) => put_source(
            out,
            at,
            b"UartReceiveClock(",
            sclk_sel,
        ),
        Unsupported::UartFeature(feature) => put_feature(out, at, feature),
    }
}

// A notice that is not the first of the list.
fn put_next(out: &mut [u8], at: usize, what: Unsupported) -> usize
    ensures { Puts (ascii "," ++ notice_text what) out.old at out.new result }
{
    let comma = put(out, at, b",");
    put_notice(out, comma, what)
}

// Puts the first `noted` of them with a comma between, or `-` for none.
pub fn put_notices(out: &mut [u8], at: usize, notices: [Notice; 8], noted: usize) -> usize
    requires { Room (notices_text (take (min noted 8) notices)) out.old at }
    ensures { Put (notices_text (take (min noted 8) notices)) out.old at out.new result }
{
    if noted == 0 {
        return put(out, at, b"-");
    }
    let first = notices[0];
    let what = first.what;
    let mut place = put_notice(out, at, what);
    let count = noted.min(8);
    for i in 1..count {
        let notice = notices[i];
        place = put_next(out, place, notice.what);
    }
    place
}

// A notice and how often it came.
fn put_count(out: &mut [u8], at: usize, what: Unsupported, times: u64) -> usize
    ensures { Puts (count_text what times) out.old at out.new result }
{
    let named = put_notice(out, at, what);
    let star = put(out, named, b"*");
    put_decimal(out, star, times)
}

// Puts the notices of a row, of which there are at most two, each with how often it came, or `-` for none.
pub fn put_counts(
    out: &mut [u8],
    at: usize,
    notices: [Notice; 8],
    noted: usize,
    first: u64,
    second: u64,
) -> usize
    requires { Room (counts_text first second (take (min noted 2) notices)) out.old at }
    ensures { Put (counts_text first second (take (min noted 2) notices)) out.old at out.new result }
{
    let one = notices[0];
    let what = one.what;
    if noted == 0 {
        put(out, at, b"-")
    } else if noted == 1 {
        put_count(out, at, what, first)
    } else {
        let two = notices[1];
        let next = two.what;
        let place = put_count(out, at, what, first);
        let comma = put(out, place, b",");
        put_count(out, comma, next, second)
    }
}
