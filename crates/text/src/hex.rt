// Bytes as a word: an even number of hexadecimal digits, or `-` for none.
ghost use Rattle.std.specs.Prelude.{◌≡◌, ◌/◌, ◌≤◌, length, MatchOption};
ghost use Rattle.text.specs.Hexes.{pair_value, pairs_read, pairs_stored, bytes_read, bytes_stored};

use crate::digits::digit;
use crate::names::same;

// Why a word gives no bytes: it spells none, or more than there is room for.
#[derive(Clone, Copy, Debug, PartialEq, Eq)]
pub enum NotBytes {
    NoBytes,
    NoRoom,
}

// The byte that two digits spell; none where one of them is no digit.
#[tactic(auto, unfolding(crate::specs::Hexes::pair_value))]
fn pair(high: u8, low: u8) -> Option<u8>
    ensures { MatchOption result (pair_value high low ≡ 256) (λ b. (b ≡ pair_value high low) × (b ≤ 255)) }
{
    let h = digit(high)?;
    let l = digit(low)?;
    Some((16 * h + l) as u8)
}

// Stores the bytes that the pairs of digits of `s` spell at the front of `to`.
fn read_pairs(s: &[u8], to: &mut [u8]) -> Result<usize, NotBytes>
    requires { length s.now / 2 ≤ length to.old }
    ensures value { result ≡ pairs_read s.now }
    ensures to_after { to.new ≡ pairs_stored s.now to.old }
{
    for n in 0..s.len() / 2 {
        let Some(b) = pair(s[2 * n], s[2 * n + 1]) else {
            return Err(NotBytes::NoBytes);
        };
        to[n] = b;
    }
    if s.len() % 2 == 0 {
        Ok(s.len() / 2)
    } else {
        Err(NotBytes::NoBytes)
    }
}

// The bytes of a word, at the front of `to`. A word with a fault stores the bytes that stand before it and answers NoBytes;
// a word of more bytes than `to` has stores nothing.
pub fn read_bytes(s: &[u8], to: &mut [u8]) -> Result<usize, NotBytes>
    ensures value { result ≡ bytes_read (length to.old) s.now }
    ensures to_after { to.new ≡ bytes_stored s.now to.old }
{
    if same(s, b"-") {
        return Ok(0);
    }
    if s.len() / 2 > to.len() {
        return Err(NotBytes::NoRoom);
    }
    read_pairs(s, to)
}
