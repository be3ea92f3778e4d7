// A line of a trace: a call that is put out blanked, one that is left out, or nothing.
ghost use Rattle.std.specs.Prelude.{◌≡◌, ◌+◌, ◌≤◌, length, is_some};
ghost use Rattle.text.specs.Output.{Put};
ghost use Rattle.model.specs.SetUp.{set_up_reply};
ghost use Rattle.blanking.specs.Lines.{call_kind, one_more, counted as Lines·counted, after_set_up, begun};
ghost use Rattle.blanking.specs.Lines.{blanked_text, trace_after};
ghost use Rattle.blanking.specs.LineLaws.{longest, Blanks};
ghost use Rattle.blanking.specs.Lines.{Kind};

use crate::call::put_call;
use model::SetUp;
use replies::refusals::set_up_reply;
use text::output::put;
use text::spelling::put_decimal;
use trace::asks::{Asks, asks_of};
use trace::line::{Call, read_line};
use trace::low::sixteen;
use trace::names::Name;

// The register map, once a UART is set up; the lines so far, and those left out.
#[derive(Clone, Copy)]
pub struct Trace {
    pub map: Option<[u32; 16]>,
    pub number: u64,
    pub left_out: u64,
}

// What a line leaves: the trace after it, and the place after its text.
#[derive(Clone, Copy)]
pub struct Blanked {
    pub trace: Trace,
    pub at: usize,
}

// No line has come yet.
pub fn begin() -> Trace
    ensures { result ≡ begun }
{
    Trace {
        map: None,
        number: 0,
        left_out: 0,
    }
}

// No trace has so many lines that a count ends.
fn one_more(count: u64) -> u64
    ensures { result ≡ one_more count }
{
    if count < u64::MAX { count + 1 } else { count }
}

fn counted(mut trace: Trace) -> Trace
    ensures { result ≡ Lines·counted trace }
{
    trace.number = one_more(trace.number);
    trace
}

// A line that is no call: no word of it is put out, for it could hold anything.
fn leave_out(mut trace: Trace, out: &mut [u8], at: usize) -> Blanked
    requires { at + longest ≤ length out.old }
    ensures { Blanks Kind.left_out trace out.old at out.new result }
{
    let named = put(out, at, b"# line ");
    let numbered = put_decimal(out, named, trace.number);
    let end = put(out, numbered, b" left out\n");
    trace.left_out = one_more(trace.left_out);
    Blanked { trace, at: end }
}

// A set-up that is refused leaves the map before it.
fn set_map(mut trace: Trace, offsets: [u32; 16]) -> Trace
    ensures { result ≡ after_set_up (set_up_reply offsets) offsets trace }
{
    let reply = set_up_reply(offsets);
    match reply {
        Ok(()) => {
            trace.map = Some(offsets);
            trace
        }
        Err(_) => trace,
    }
}

// A call: a set-up, one of the UART that is set up, or figures, which need none.
fn call(
    trace: Trace,
    name: Name,
    all: [u64; 32],
    last: usize,
    bytes: &[u8],
    s: &[u8],
    out: &mut [u8],
    at: usize,
) -> Blanked
    requires bytes_len_bound { length bytes.now ≤ 32768 }
    requires longest_in_bounds { at + longest ≤ length out.old }
    ensures { Blanks (call_kind (is_some trace.map) name all last bytes.now s.now) trace
        out.old at out.new result }
{
    // A set-up and figures do not look at the map.
    let offsets = trace.map.unwrap_or([0u32; 16]);
    let asks = asks_of(name);
    match asks {
        Asks::SetUp => {
            let end = put_call(out, at, offsets, name, all, last, bytes, s);
            Blanked {
                trace: set_map(trace, sixteen(all, 0)),
                at: end,
            }
        }
        Asks::Figures => {
            let end = put_call(out, at, offsets, name, all, last, bytes, s);
            Blanked { trace, at: end }
        }
        Asks::Uart => {
            if trace.map.is_some() {
                let end = put_call(out, at, offsets, name, all, last, bytes, s);
                Blanked { trace, at: end }
            } else {
                leave_out(trace, out, at)
            }
        }
    }
}

// Puts out what stands for the line `s`, blanked. One that is too long is no call.
pub fn blank_line(from: Trace, long: bool, s: &[u8], out: &mut [u8], at: usize) -> Blanked
    requires { at + longest ≤ length out.old }
    ensures put { Put (blanked_text from long s.now) out.old at out.new result.at }
    ensures trace_value { result.trace ≡ trace_after from long s.now }
{
    let trace = counted(from);
    if long {
        return leave_out(trace, out, at);
    }
    let mut numbers = [0u64; 32];
    let mut bytes = [0u8; 32768];
    match read_line(s, &mut numbers, &mut bytes) {
        Ok(None) => Blanked { trace, at },
        Ok(Some(Call { name, last })) => call(trace, name, numbers, last, &bytes, s, out, at),
        Err(_) => leave_out(trace, out, at),
    }
}
