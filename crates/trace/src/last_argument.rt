// The last word of a line, where a call has one of another kind than numbers.
ghost use Rattle.std.specs.Prelude.{◌≡◌, length};
ghost use Rattle.trace.specs.Pairs.{pairs_at};
ghost use Rattle.trace.specs.Last.{bit_at, bytes_at, bytes_kept, last_at, last_kept};

use crate::arguments::{Last, form_of};
use crate::faults::{Fault, Reason};
use crate::names::Name;
use crate::number::{Kind, read_one};
use crate::pairs::read_pairs;
use crate::step::Step;
use text::hex::read_bytes;
use text::names::same;
use text::words::next_word;

#[tactic(auto, unfolding(crate::specs::Last::bit_at, crate::specs::Steps::word_at))]
fn read_bit(s: &[u8], at: usize) -> Result<Step, Fault>
    ensures { result ≡ bit_at s.now at }
{
    let word = next_word(s, at);
    let start = word.start;
    let end = word.end;
    if start == end {
        return Err(Fault::missing(s));
    }
    let part = &s[start..end];
    if same(part, b"0") {
        return Ok(Step { to: end, number: 0 });
    }
    if same(part, b"1") {
        return Ok(Step { to: end, number: 1 });
    }
    Err(Fault::of(Reason::NoBit, word))
}

// The bytes go to the front of `bytes`; the number is how many.
#[tactic(auto, unfolding(crate::specs::Last::bytes_at, crate::specs::Last::bytes_kept, crate::specs::Steps::word_at))]
fn read_hex(s: &[u8], at: usize, bytes: &mut [u8]) -> Result<Step, Fault>
    ensures value { result ≡ bytes_at (length bytes.old) s.now at }
    ensures bytes_after { bytes.new ≡ bytes_kept s.now at bytes.old }
{
    let word = next_word(s, at);
    let start = word.start;
    let end = word.end;
    if start == end {
        return Err(Fault::missing(s));
    }
    match read_bytes(&s[start..end], bytes) {
        Ok(count) => Ok(Step {
            to: end,
            number: count as u64,
        }),
        Err(_) => Err(Fault::of(Reason::NoBytes, word)),
    }
}

// How many pairs there are. The numbers are read and not kept: whoever carries the call out reads them again.
fn count_pairs(s: &[u8], at: usize) -> Result<Step, Fault>
    ensures { result ≡ (pairs_at s.now at).step }
{
    let mut firsts = [0u64; 1];
    let mut seconds = [0u64; 1];
    read_pairs(s, at, &mut firsts, &mut seconds)
}

// Reads what stands last, where the call has something of another kind.
pub fn read_last(s: &[u8], at: usize, name: Name, bytes: &mut [u8]) -> Result<Step, Fault>
    ensures value { result ≡ last_at (length bytes.old) s.now at name }
    ensures bytes_after { bytes.new ≡ last_kept s.now at name bytes.old }
{
    match form_of(name).last {
        Last::None => Ok(Step { to: at, number: 0 }),
        Last::Bit => read_bit(s, at),
        Last::Length => read_one(s, at, Kind::Length),
        Last::Bytes => read_hex(s, at, bytes),
        Last::Pairs => count_pairs(s, at),
    }
}
