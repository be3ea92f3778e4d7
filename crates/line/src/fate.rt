// What follows from what a pass found.
ghost use Rattle.std.specs.Prelude.{◌≡◌};
ghost use Rattle.line.specs.Seen.{goes_on, lost};
ghost use Rattle.line.specs.Applied.{is_stored};

use crate::Found;
use model::Fate;

// Whether another pass may find more.
pub fn goes_on(found: Found) -> bool
    ensures { result ≡ goes_on found }
{
    !matches!(found, Found::NothingDue)
}

// How many bytes overflowed.
pub fn overflow_of(found: Found) -> u64
    ensures { result ≡ lost found }
{
    match found {
        Found::Landed(Fate::Overflowed) => 1,
        _ => 0,
    }
}

// Whether a byte enters the receive FIFO.
pub fn is_stored(found: Found) -> bool
    ensures { result ≡ is_stored found }
{
    matches!(found, Found::Landed(Fate::Stored))
}
