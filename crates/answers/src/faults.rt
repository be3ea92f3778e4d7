// What is answered to a line that is no call.
ghost use Rattle.std.specs.Prelude.{◌≡◌, ◌-◌, ◌≤◌, take, drop};
ghost use Rattle.text.specs.Output.{Put};
ghost use Rattle.text.specs.Chains.{Room, Puts};
ghost use Rattle.answers.specs.Faults.{reason_text, shown, shown_text, fault_text, long_text};

use text::output::put;
use trace::faults::{Fault, Reason};

// More of a word than this is not shown.
const SHOWN: usize = 40;

fn put_reason(out: &mut [u8], at: usize, reason: Reason) -> usize
    ensures { Put (reason_text reason) out.old at out.new result }
{
    match reason {
        Reason::UnknownName => put(out, at, b"no call has the name"),
        Reason::MissingWord => put(out, at, b"a word is missing after"),
        Reason::ExtraWord => put(out, at, b"an extra word"),
        Reason::NoNumber => put(out, at, b"no number of 64 bits"),
        Reason::NoNumber32 => put(out, at, b"no number of 32 bits"),
        Reason::NoBit => put(out, at, b"neither 0 nor 1"),
        Reason::NoLength => put(out, at, b"no length of at most 8192"),
        Reason::NoBytes => put(out, at, b"no even number of hexadecimal digits"),
        Reason::NoUart => put(out, at, b"no UART is set up for"),
    }
}

// A byte as it is shown: one that does not print is a `?`.
fn printable(byte: u8) -> u8
    ensures { result ≡ shown byte }
{
    if byte < 33 {
        return b'?';
    }
    if byte > 126 {
        return b'?';
    }
    byte
}

// Puts the start of a word of `s`.
fn put_start(out: &mut [u8], at: usize, s: &[u8], start: usize, end: usize) -> usize
    ensures { Puts (shown_text (take (end - start) (drop start s.now))) out.old at out.new result }
{
    let mut place = at;
    for i in start..end {
        if i >= s.len() {
            return place;
        }
        if i - start >= SHOWN {
            return put(out, place, b"..");
        }
        let letter = [printable(s[i])];
        place = put(out, place, &letter);
    }
    place
}

// Puts the line that a line with a fault answers.
pub fn put_fault(out: &mut [u8], at: usize, s: &[u8], fault: Fault) -> usize
    requires { Room (fault_text s.now fault) out.old at }
    ensures { Put (fault_text s.now fault) out.old at out.new result }
{
    let named = put(out, at, b"error: ");
    let reason = fault.reason;
    let said = put_reason(out, named, reason);
    let quoted = put(out, said, b": `");
    let word = put_start(out, quoted, s, fault.start, fault.end);
    put(out, word, b"`\n")
}

// Puts the line that a line of more than 65,536 bytes answers.
pub fn put_long(out: &mut [u8], at: usize) -> usize
    ensures { Put long_text out.old at out.new result }
{
    put(out, at, b"error: the line is longer than 65536 bytes\n")
}
