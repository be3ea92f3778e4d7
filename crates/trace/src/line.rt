// A line of the replay format as a call: its name, its numbers and its last word; or what is wrong with it. Its numbers and
// bytes go to lent arrays, so that a line with a fault changes nothing else.
ghost use Rattle.std.specs.Prelude.{◌≡◌, length};
ghost use Rattle.trace.specs.Numbers.{numbers_at};
ghost use Rattle.trace.specs.Stored.{stored};
ghost use Rattle.trace.specs.Lines.{end_at, words_at, words_kept};
ghost use Rattle.trace.specs.Lines.{line_of, numbers_of, bytes_after};

use crate::faults::{Fault, Reason};
use crate::last_argument::read_last;
use crate::names::{Name, name_of};
use crate::numbers::read_numbers;
use text::words::next_word;

// A call, with its last word where that is of another kind than numbers: 0 or 1, a length, or how many bytes or pairs there are.
#[derive(Clone, Copy, Debug, PartialEq, Eq)]
pub struct Call {
    pub name: Name,
    pub last: usize,
}

// No word is left after the last one.
#[tactic(auto, unfolding(crate::specs::Lines::end_at, crate::specs::Steps::word_at))]
fn read_end(s: &[u8], at: usize, name: Name, last: u64) -> Result<Call, Fault>
    ensures { result ≡ end_at s.now name at last }
{
    let word = next_word(s, at);
    if word.start == word.end {
        return Ok(Call {
            name,
            last: last as usize,
        });
    }
    Err(Fault::of(Reason::ExtraWord, word))
}

// The words after the name.
fn read_words(
    s: &[u8],
    at: usize,
    name: Name,
    numbers: &mut [u64; 32],
    bytes: &mut [u8],
) -> Result<Call, Fault>
    ensures value { result ≡ words_at (length bytes.old) s.now name at }
    ensures numbers_after { numbers.new ≡ stored (numbers_at s.now at name).values numbers.old }
    ensures bytes_after { bytes.new ≡ words_kept s.now name at bytes.old }
{
    let end = read_numbers(s, at, name, numbers)?;
    let last = read_last(s, end, name, bytes)?;
    read_end(s, last.to, name, last.number)
}

// Reads a line; one that is blank, or a comment, is no call. The numbers go to the front of `numbers`, and the bytes to that of
// `bytes`; what was read before a fault stays there.
#[tactic(auto, unfolding(crate::specs::Lines::on_call, crate::specs::Stored::stored_from, crate::specs::Steps::word_at))]
pub fn read_line(s: &[u8], numbers: &mut [u64; 32], bytes: &mut [u8]) -> Result<Option<Call>, Fault>
    ensures value { result ≡ line_of (length bytes.old) s.now }
    ensures numbers_after { numbers.new ≡ stored (numbers_of s.now) numbers.old }
    ensures bytes_after { bytes.new ≡ bytes_after s.now bytes.old }
{
    let word = next_word(s, 0);
    if word.start == word.end || s[0] == b'#' {
        return Ok(None);
    }
    let Some(name) = name_of(&s[word.start..word.end]) else {
        return Err(Fault::of(Reason::UnknownName, word));
    };
    let call = read_words(s, word.end, name, numbers, bytes)?;
    Ok(Some(call))
}
