// Output: bytes put into a lent buffer from a place on. What does not fit changes nothing, and the place stays.
ghost use Rattle.std.specs.Prelude.{◌≡◌, ◌+◌, ◌-◌, ◌*◌, ◌/◌, ◌%◌, ◌≤◌, length};
ghost use Rattle.text.specs.Digits.{letter as Digits·letter};
ghost use Rattle.text.specs.Output.{stored, Put};
ghost use Rattle.text.specs.HexText.{hex_pairs, hex_text};

use crate::letters::letter;

// How much room there is from `at` on.
pub fn room(len: usize, at: usize) -> usize
    ensures { result ≡ len - at }
{
    len.saturating_sub(at)
}

// Byte by byte: most of what is put is short, and `copy_from_slice` calls the C library's copy for each.
fn copy(out: &mut [u8], at: usize, s: &[u8])
    requires { length s.now ≤ length out.old - at }
    ensures { out.new ≡ stored out.old at s.now }
{
    for (i, b) in s.iter().enumerate() {
        out[at + i] = *b;
    }
}

// Puts the bytes of `s` and gives the place after them.
pub fn put(out: &mut [u8], at: usize, s: &[u8]) -> usize
    ensures { Put s.now out.old at out.new result }
{
    if room(out.len(), at) < s.len() {
        return at;
    }
    copy(out, at, s);
    at + s.len()
}

fn high_letter(b: u8) -> u8
    ensures { result ≡ Digits·letter (b / 16) }
{
    letter(b / 16)
}

fn low_letter(b: u8) -> u8
    ensures { result ≡ Digits·letter (b % 16) }
{
    letter(b % 16)
}

fn spell_pairs(out: &mut [u8], at: usize, s: &[u8])
    requires { 2 * length s.now ≤ length out.old - at }
    ensures { out.new ≡ stored out.old at (hex_pairs s.now) }
{
    for (i, b) in s.iter().enumerate() {
        out[at + 2 * i] = high_letter(*b);
        out[at + 2 * i + 1] = low_letter(*b);
    }
}

// Puts two hexadecimal digits for each byte of `s`, or `-` where it has none, and gives the place after them.
pub fn put_bytes(out: &mut [u8], at: usize, s: &[u8]) -> usize
    ensures { Put (hex_text s.now) out.old at out.new result }
{
    if s.len() == 0 {
        return put(out, at, b"-");
    }
    if room(out.len(), at) / 2 < s.len() {
        return at;
    }
    spell_pairs(out, at, s);
    at + 2 * s.len()
}
