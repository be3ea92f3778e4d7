// One number of a line, the next word from a place on.
ghost use Rattle.std.specs.Prelude.{◌≡◌};
ghost use Rattle.trace.specs.One.{limit_of, reason_of, number_at};

use crate::faults::{Fault, Reason};
use crate::step::Step;
use text::numbers::read_number;
use text::words::next_word;

// A number of 64 bits, one of 32, or the length of a buffer that a call may lend.
#[derive(Clone, Copy, Debug, PartialEq, Eq)]
pub enum Kind {
    Wide,
    Narrow,
    Length,
}

fn limit_of(kind: Kind) -> u64
    ensures { result ≡ limit_of kind }
{
    match kind {
        Kind::Wide => u64::MAX,
        Kind::Narrow => 4294967295,
        Kind::Length => 8192,
    }
}

fn reason_of(kind: Kind) -> Reason
    ensures { result ≡ reason_of kind }
{
    match kind {
        Kind::Wide => Reason::NoNumber,
        Kind::Narrow => Reason::NoNumber32,
        Kind::Length => Reason::NoLength,
    }
}

// Reads one number.
#[tactic(auto, unfolding(crate::specs::One::number_at, crate::specs::Steps::word_at))]
pub fn read_one(s: &[u8], at: usize, kind: Kind) -> Result<Step, Fault>
    ensures { result ≡ number_at s.now at kind }
{
    let word = next_word(s, at);
    if word.start == word.end {
        return Err(Fault::missing(s));
    }
    match read_number(&s[word.start..word.end], limit_of(kind)) {
        Some(number) => Ok(Step {
            to: word.end,
            number,
        }),
        None => Err(Fault::of(reason_of(kind), word)),
    }
}
