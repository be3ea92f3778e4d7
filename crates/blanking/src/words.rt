// Words that are written, and the reset words of a set-up.
ghost use Rattle.std.specs.Prelude.{◌≡◌};
ghost use Rattle.model.specs.Unused.{takes_word};
ghost use Rattle.registers.specs.Places.{register_at};
ghost use Rattle.theorems.specs.Blanked.{blank_word, blank_resets};

use registers::places::{Place, place_of};

// STATUS bits 0-9, RXFIFO_CNT, and 16-25, TXFIFO_CNT.
const FIFO_COUNTS: u32 = 0x03FF03FF;

// Whether a word written to a place does something. FIFO takes its low byte alone.
fn takes_word(place: Place) -> bool
    ensures { result ≡ takes_word (register_at place) }
{
    match place {
        Place::IntEna | Place::IntClr | Place::Clkdiv | Place::Conf0 | Place::Conf1 => true,
        Place::ClkConf | Place::IdleConf | Place::Rs485Conf | Place::AtCmdChar | Place::MemConf =>
            true,
        _ => false,
    }
}

// The word of a write: kept where its place takes words, and else 0.
pub fn blank_word(offsets: [u32; 16], offset: u32, value: u32) -> u32
    ensures { result ≡ blank_word offsets offset value }
{
    let place = place_of(offsets, offset);
    if takes_word(place) { value } else { 0 }
}

// The reset words, those that set-up does not use replaced by 0.
pub fn blank_resets(resets: [u32; 16]) -> [u32; 16]
    ensures { result ≡ blank_resets resets }
{
    [
        0,
        0,
        0,
        resets[3],
        0,
        resets[5],
        resets[6] & !FIFO_COUNTS,
        0,
        resets[8],
        resets[9],
        resets[10],
        resets[11],
        resets[12],
        resets[13],
        resets[14],
        resets[15],
    ]
}
