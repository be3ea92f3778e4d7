// Numbers of 64 bits in pairs, from a place on up to the line's end. A line may have any number of them.
ghost use Rattle.std.specs.Prelude.{◌≡◌, set};
ghost use Rattle.trace.specs.Stored.{stored};
ghost use Rattle.trace.specs.Pairs.{pairs_at, Kept};

use crate::faults::Fault;
use crate::number::{Kind, read_one};
use crate::step::Step;
use text::words::next_word;

// Stores a number at a place; where there is no such place, nothing.
fn keep(to: &mut [u64], place: usize, number: u64)
    ensures { to.new ≡ set to.old place number }
{
    if place < to.len() {
        to[place] = number;
    }
}

// Reads the pairs, the first numbers to the front of one list and the second ones to that of another. A pair for which there is no
// room is read all the same, and not kept. The step's number is how many pairs there are.
#[tactic(auto, using(crate::specs::Pairs::from_on), unfolding(crate::specs::Stored::stored_from, crate::specs::Pairs::pairs_from))]
pub fn read_pairs(
    s: &[u8],
    from: usize,
    firsts: &mut [u64],
    seconds: &mut [u64],
) -> Result<Step, Fault>
    ensures value { result ≡ (pairs_at s.now from).step }
    ensures firsts_after { firsts.new ≡ stored (pairs_at s.now from).firsts firsts.old }
    ensures seconds_after { seconds.new ≡ stored (pairs_at s.now from).seconds seconds.old }
{
    let mut at = from;
    for n in 0..s.len() {
        let word = next_word(s, at);
        if word.start == word.end {
            return Ok(Step {
                to: at,
                number: n as u64,
            });
        }
        let first = read_one(s, at, Kind::Wide)?;
        let second = read_one(s, first.to, Kind::Wide)?;
        keep(firsts, n, first.number);
        keep(seconds, n, second.number);
        at = second.to;
    }
    Ok(Step {
        to: at,
        number: s.len() as u64,
    })
}

// The pairs of a line whose call has nothing else, all of them or the first 1,025. The number is how many are kept, 0 for a line that
// is no such call.
pub fn pairs_of(s: &[u8], firsts: &mut [u64; 1025], seconds: &mut [u64; 1025]) -> usize
    ensures { Kept s.now firsts.new seconds.new result }
{
    let name = next_word(s, 0);
    let read = read_pairs(s, name.end, firsts, seconds);
    read.map_or(0, |last| last.number as usize).min(1025)
}
