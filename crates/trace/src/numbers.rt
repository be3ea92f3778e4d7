// The numbers of a line, each the next word from a place on.
ghost use Rattle.std.specs.Prelude.{◌≡◌, ◌≤◌};
ghost use Rattle.trace.specs.Numbers.{kind_at, numbers_from, numbers_at};
ghost use Rattle.trace.specs.Stored.{stored};

use crate::arguments::form_of;
use crate::faults::Fault;
use crate::names::Name;
use crate::number::{Kind, read_one};

fn kind_at(wide: usize, i: usize) -> Kind
    ensures { result ≡ kind_at wide i }
{
    if i < wide { Kind::Wide } else { Kind::Narrow }
}

// Reads `count` numbers, of which the first `wide` have 64 bits and the others 32.
#[tactic(auto, using(crate::specs::Numbers::from_on), unfolding(crate::specs::Stored::stored_from, crate::specs::Numbers::numbers_from))]
fn read_each(
    s: &[u8],
    from: usize,
    wide: usize,
    count: usize,
    to: &mut [u64; 32],
) -> Result<usize, Fault>
    requires { count ≤ 32 }
    ensures value { result ≡ (numbers_from s.now wide 0 count from).end }
    ensures to_after { to.new ≡ stored (numbers_from s.now wide 0 count from).values to.old }
{
    let mut at = from;
    for i in 0..count {
        let one = read_one(s, at, kind_at(wide, i))?;
        to[i] = one.number;
        at = one.to;
    }
    Ok(at)
}

// Reads the numbers of a call to the front of `to`, and gives the place after them.
#[tactic(auto, using(crate::specs::Forms::count_fits))]
pub fn read_numbers(s: &[u8], from: usize, name: Name, to: &mut [u64; 32]) -> Result<usize, Fault>
    ensures value { result ≡ (numbers_at s.now from name).end }
    ensures to_after { to.new ≡ stored (numbers_at s.now from name).values to.old }
{
    let form = form_of(name);
    read_each(s, from, form.wide, form.count, to)
}
