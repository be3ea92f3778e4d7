// What makes a line no call.
ghost use Rattle.std.specs.Prelude.{◌≡◌};
ghost use Rattle.trace.specs.Steps.{fault, missing};

use text::words::{Word, next_word};

#[derive(Clone, Copy, Debug, PartialEq, Eq)]
pub enum Reason {
    UnknownName,
    // The word is the call's name.
    MissingWord,
    ExtraWord,
    NoNumber,
    NoNumber32,
    NoBit,
    NoLength,
    NoBytes,
    NoUart,
}

// The word at fault stands from `start` up to, and without, `end`.
#[derive(Clone, Copy, Debug, PartialEq, Eq)]
pub struct Fault {
    pub reason: Reason,
    pub start: usize,
    pub end: usize,
}

impl Fault {
    pub fn of(reason: Reason, word: Word) -> Fault
        ensures { result ≡ fault reason word }
    {
        Fault {
            reason,
            start: word.start,
            end: word.end,
        }
    }

    // The word at fault is then the call's name.
    pub fn missing(s: &[u8]) -> Fault
        ensures { result ≡ missing s.now }
    {
        Fault::of(Reason::MissingWord, next_word(s, 0))
    }
}
