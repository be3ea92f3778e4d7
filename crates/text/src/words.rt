// Words: what stands between spaces. Only the space separates; a tab or a carriage return is a part of its word.
ghost use Rattle.std.specs.Prelude.{◌≡◌};
ghost use Rattle.text.specs.Words.{Found};

use crate::parts::within;
use crate::scan::{seek, skip};

// A word's bytes are those from `start` up to, and without, `end`. Where the two are equal there is no word.
#[derive(Clone, Copy, Debug, PartialEq, Eq)]
pub struct Word {
    pub start: usize,
    pub end: usize,
}

// The first word of `s` from `at` on. The next one is asked for from its end.
pub fn next_word(s: &[u8], at: usize) -> Word
    ensures { Found s.now at result }
{
    let start = skip(s, within(at, s), b' ');
    let end = seek(s, start, b' ');
    Word { start, end }
}
