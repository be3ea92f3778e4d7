// Storage: nine words, bit for bit, over the places. A place that it does not hold is neither read nor written.
// Carried over from inkemu's periph/mod.rs and changed: the words stand in a struct and an offset is a place already.
ghost use Rattle.std.specs.Prelude.{◌≡◌};
ghost use Rattle.model.specs.Replies.{as_read};
ghost use Rattle.registers.specs.Storage.{held_at, holds as Storage·holds, loaded, written};

use crate::places::Place;
use model::{Read, Words};

pub fn read(words: Words, place: Place) -> Read
    ensures { result ≡ as_read (loaded words (held_at place)) }
{
    match place {
        Place::IntEna => Ok(Some(words.int_ena)),
        Place::Clkdiv => Ok(Some(words.clkdiv)),
        Place::Conf0 => Ok(Some(words.conf0)),
        Place::Conf1 => Ok(Some(words.conf1)),
        Place::ClkConf => Ok(Some(words.clk_conf)),
        Place::IdleConf => Ok(Some(words.idle_conf)),
        Place::Rs485Conf => Ok(Some(words.rs485_conf)),
        Place::AtCmdChar => Ok(Some(words.at_cmd_char)),
        Place::MemConf => Ok(Some(words.mem_conf)),
        _ => Ok(None),
    }
}

// Whether a place is held. A list of its own: a function that lends the word at a place would need the words, and here are none.
fn holds(place: Place) -> bool
    ensures { result ≡ Storage·holds (held_at place) }
{
    matches!(
        place,
        Place::IntEna
            | Place::Clkdiv
            | Place::Conf0
            | Place::Conf1
            | Place::ClkConf
            | Place::IdleConf
            | Place::Rs485Conf
            | Place::AtCmdChar
            | Place::MemConf
    )
}

// The words, with the one at a place replaced where it is held.
fn with_word(mut words: Words, place: Place, value: u32) -> Words
    ensures { result ≡ written (held_at place) value words }
{
    match place {
        Place::IntEna => words.int_ena = value,
        Place::Clkdiv => words.clkdiv = value,
        Place::Conf0 => words.conf0 = value,
        Place::Conf1 => words.conf1 = value,
        Place::ClkConf => words.clk_conf = value,
        Place::IdleConf => words.idle_conf = value,
        Place::Rs485Conf => words.rs485_conf = value,
        Place::AtCmdChar => words.at_cmd_char = value,
        Place::MemConf => words.mem_conf = value,
        _ => {}
    }
    words
}

// The words after a write, and whether the place is held.
#[derive(Clone, Copy)]
pub struct StorageWrite {
    pub words: Words,
    pub accepted: bool,
}

pub fn write(words: Words, place: Place, value: u32) -> StorageWrite
    ensures { (result.words ≡ written (held_at place) value words) × (result.accepted ≡ Storage·holds (held_at place)) }
{
    StorageWrite {
        words: with_word(words, place, value),
        accepted: holds(place),
    }
}
