// A call, put out anew in one form and blanked, so that neither spacing nor the spelling of a number carries anything over. The
// functions that are not public put their bytes where there is room for them; `put_call` requires the room for all.
ghost use Rattle.std.specs.Prelude.{◌≡◌, ◌∷◌, ◌++◌, map, ◌+◌, ◌≤◌, ltb, length, take, drop, replicate};
ghost use Rattle.text.specs.Output.{Put};
ghost use Rattle.text.specs.HexText.{hex_text};
ghost use Rattle.trace.specs.Low.{low_of};
ghost use Rattle.theorems.specs.Blanked.{blank_byte, blank_word, blank_resets};
ghost use Rattle.blanking.specs.Entries.{entry_of, blanked_entry, number, numbers, bit_number};
ghost use Rattle.blanking.specs.Entries.{entry_words, entry_text};
ghost use Rattle.blanking.specs.Puts.{Puts};

use crate::frames::put_frames;
use crate::words::{blank_resets, blank_word};
use text::output::{put, put_bytes};
use text::parts::within;
use text::spelling::put_decimal;
use trace::low::{low, sixteen};
use trace::names::{Name, letters};

// A space, and a number.
fn put_number(out: &mut [u8], at: usize, n: u64) -> usize
    ensures { Puts (number n) out.old at out.new result }
{
    let spaced = put(out, at, b" ");
    put_decimal(out, spaced, n)
}

pub(crate) fn put_two(out: &mut [u8], at: usize, a: u64, b: u64) -> usize
    ensures { Puts (number a ++ number b) out.old at out.new result }
{
    let first = put_number(out, at, a);
    put_number(out, first, b)
}

// Sixteen numbers: the offsets of a set-up, or its reset words.
fn put_sixteen(out: &mut [u8], at: usize, words: [u32; 16]) -> usize
    ensures { Puts (numbers words) out.old at out.new result }
{
    let mut place = at;
    for word in words {
        place = put_number(out, place, word as u64);
    }
    place
}

fn put_set_up(out: &mut [u8], at: usize, all: [u64; 32]) -> usize
    ensures { Puts (numbers (take 16 (map low_of (drop 0 all))) ++ numbers (blank_resets (take 16 (map low_of (drop 16 all)))))
        out.old at out.new result }
{
    let offsets = put_sixteen(out, at, sixteen(all, 0));
    put_sixteen(out, offsets, blank_resets(sixteen(all, 16)))
}

// The numbers of a write.
#[derive(Clone, Copy)]
struct Numbers {
    date: u64,
    offset: u32,
    value: u32,
}

// A write, its value blanked by the register map.
fn blanked_write(map: [u32; 16], date: u64, offset: u32, value: u32) -> Numbers
    ensures { (result.date ≡ date) × (result.offset ≡ offset) × (result.value ≡ blank_word map offset value) }
{
    Numbers {
        date,
        offset,
        value: blank_word(map, offset, value),
    }
}

fn put_write(out: &mut [u8], at: usize, map: [u32; 16], date: u64, offset: u32, value: u32) -> usize
    ensures { Puts (number date ++ number offset ++ number (blank_word map offset value))
        out.old at out.new result }
{
    let blank = blanked_write(map, date, offset, value);
    let dated = put_two(out, at, blank.date, blank.offset as u64);
    put_number(out, dated, blank.value as u64)
}

// Zeros for `count` bytes; none is `-`.
fn put_zeros(out: &mut [u8], at: usize, count: usize) -> usize
    requires { count ≤ 32768 }
    ensures { Put (hex_text (replicate count 0)) out.old at out.new result }
{
    let zeros = [0u8; 32768];
    put_bytes(out, at, &zeros[0..count])
}

// A space, and the bytes of a line, blanked.
fn put_blanked(out: &mut [u8], at: usize, bytes: &[u8], count: usize) -> usize
    requires { length bytes.now ≤ 32768 }
    ensures { Puts (32 ∷ hex_text (map blank_byte (take count bytes.now))) out.old at out.new result }
{
    let n = within(count, bytes);
    let spaced = put(out, at, b" ");
    put_zeros(out, spaced, n)
}

// A hand-over, its host bytes blanked.
fn put_received(
    out: &mut [u8],
    at: usize,
    date: u64,
    start: u64,
    bytes: &[u8],
    count: usize,
) -> usize
    requires { length bytes.now ≤ 32768 }
    ensures { Puts (number date ++ number start ++ (32 ∷ hex_text (map blank_byte (take count bytes.now))))
        out.old at out.new result }
{
    let dated = put_two(out, at, date, start);
    put_blanked(out, dated, bytes, count)
}

// A row, its bytes blanked.
fn put_row(out: &mut [u8], at: usize, date: u64, bytes: &[u8], count: usize) -> usize
    requires { length bytes.now ≤ 32768 }
    ensures { Puts (number date ++ (32 ∷ hex_text (map blank_byte (take count bytes.now))))
        out.old at out.new result }
{
    let dated = put_number(out, at, date);
    put_blanked(out, dated, bytes, count)
}

fn bit_number(last: usize) -> u64
    ensures { result ≡ bit_number (ltb 0 last) }
{
    if 0 < last { 1 } else { 0 }
}

// The words after the name.
fn put_words(
    out: &mut [u8],
    at: usize,
    map: [u32; 16],
    name: Name,
    all: [u64; 32],
    last: usize,
    bytes: &[u8],
    s: &[u8],
) -> usize
    requires { length bytes.now ≤ 32768 }
    ensures { Puts (entry_words (blanked_entry map (entry_of name all last bytes.now s.now)))
        out.old at out.new result }
{
    match name {
        Name::Setup => put_set_up(out, at, all),
        Name::Read => put_two(out, at, all[0], low(all[1]) as u64),
        Name::Write => put_write(out, at, map, all[0], low(all[1]), low(all[2])),
        Name::WriteRow => put_row(out, at, all[0], bytes, last),
        Name::Receive => put_received(out, at, all[0], all[1], bytes, last),
        Name::Wake => put_number(out, at, all[0]),
        Name::Watch => put_two(out, at, all[0], bit_number(last)),
        Name::Reset => put_number(out, at, all[0]),
        Name::PowerDown => put_number(out, at, all[0]),
        Name::Clock => put_two(out, at, all[0], all[1]),
        Name::TakeTx => put_two(out, at, all[0], last as u64),
        Name::TakeWritten => put_number(out, at, last as u64),
        Name::HasLeft => at,
        Name::HostPending => at,
        Name::Figures => put_frames(out, at, s),
    }
}

// Puts the line of a call, blanked for the register map `map`, and gives the place after it.
pub fn put_call(
    out: &mut [u8],
    at: usize,
    map: [u32; 16],
    name: Name,
    all: [u64; 32],
    last: usize,
    bytes: &[u8],
    s: &[u8],
) -> usize
    requires bytes_len_bound { length bytes.now ≤ 32768 }
    requires s_in_bounds { at + length (entry_text (blanked_entry map (entry_of name all last bytes.now s.now))) ≤ length out.old }
    ensures { Put (entry_text (blanked_entry map (entry_of name all last bytes.now s.now)))
        out.old at out.new result }
{
    let named = put(out, at, letters(name));
    let words = put_words(out, named, map, name, all, last, bytes, s);
    put(out, words, b"\n")
}
