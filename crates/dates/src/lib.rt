// Dates in cycles and in subcycles, held at the last one that fits 64 bits. Carried over from
// inkemu's uart.rs (`SUBCYCLES`, `saturating_add`, `saturating_mul`, `div_ceil`, `max`, `min`) and changed.
#![tactic(auto)]

ghost use Rattle.std.specs.Prelude.{◌≡◌};
ghost use Rattle.dates.specs.Dates as Dates;

// Subcycles in a cycle: a bit lasts a whole number of sixteenths, and a frame may end on half a bit.
pub const SUBCYCLES: u64 = 32;

pub const LAST: u64 = u64::MAX;

// The date `span` after `date`, both in one unit.
pub fn after(date: u64, span: u64) -> u64
    ensures { result ≡ Dates.after date span }
{
    date.saturating_add(span)
}

// The subcycle at which `cycle` begins.
pub fn subcycles(cycle: u64) -> u64
    ensures { result ≡ Dates.subcycles cycle }
{
    cycle.saturating_mul(SUBCYCLES)
}

// The first cycle that begins at or after the subcycle `date`.
pub fn cycles(date: u64) -> u64
    ensures { result ≡ Dates.cycles date }
{
    date.div_ceil(SUBCYCLES)
}

pub fn later(a: u64, b: u64) -> u64
    ensures { result ≡ Dates.later a b }
{
    a.max(b)
}

pub fn earlier(a: u64, b: u64) -> u64
    ensures { result ≡ Dates.earlier a b }
{
    a.min(b)
}
