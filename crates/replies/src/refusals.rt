// The tests that refuse a call, as functions of numbers, and their order: 2, 3, 7, 8, 4, 5, 6. None of them forms a sum
// that could pass 64 bits. The Rust has no such limits.
ghost use Rattle.std.specs.Prelude.{◌≡◌};
ghost use Rattle.std.proofs.Math.Option.{none};
ghost use Rattle.model.specs.Replies.{number};
ghost use Rattle.model.specs.SetUp.{set_up_reply};
ghost use Rattle.model.specs.Tests.{past_end, went_back, transmit_full, host_full};
ghost use Rattle.model.specs.Tests.{runs_full, period_too_long, buffer_too_short, refuse_if};
ghost use Rattle.replies.specs.Refusals.{verdict, dates_only, sending, receiving, clocking, taking_tx, taking_written};

use crate::offsets::repeated;
use model::{Refusal, SetUp};

// The cycle from which on a date is past the end.
const DATE_END: u64 = 1 << 59;

// How many bytes may have left and be in flight; a lent buffer has room for them.
const SENT_LIMIT: usize = 1152;

// How many host bytes may wait.
const HOST_LIMIT: usize = 1024;

// In how many runs they may wait.
const RUNS_LIMIT: usize = 64;

// The longest period of the APB clock, in cycles.
const PERIOD_LIMIT: u64 = 1000000;

// What the tests of a call say.
pub type Verdict = Result<(), Refusal>;

// Document 01's number of a refusal. A function: `From<Refusal>` would have to stand in model, which has none, its contract a ghost
// member of the impl; that is no plainer.
#[tactic(auto, unfolding(model::specs::Replies::number))]
pub fn number_of(refusal: Refusal) -> u32
    ensures { result ≡ number refusal }
{
    match refusal {
        Refusal::RepeatedOffset => 1,
        Refusal::DatePastEnd => 2,
        Refusal::DateWentBack => 3,
        Refusal::TransmitFull => 4,
        Refusal::HostFull => 5,
        Refusal::RunsFull => 6,
        Refusal::PeriodTooLong => 7,
        Refusal::BufferTooShort => 8,
    }
}

// What set-up answers: 1 where two of the sixteen offsets are equal.
#[tactic(auto, unfolding(model::specs::SetUp::set_up_reply, model::specs::Numbers::choose))]
pub fn set_up_reply(offsets: [u32; 16]) -> SetUp
    ensures { result ≡ set_up_reply offsets }
{
    if repeated(offsets) {
        Err(Refusal::RepeatedOffset)
    } else {
        Ok(())
    }
}

// 2: now is 2^59 or more, in cycles.
fn past_end(cycle: u64) -> bool
    ensures { result ≡ past_end cycle }
{
    DATE_END <= cycle
}

// 3: now is below the last carried-out date, both in cycles.
fn went_back(last: u64, cycle: u64) -> bool
    ensures { result ≡ went_back last cycle }
{
    cycle < last
}

// 4: bytes left and in flight total 1,152.
#[tactic(auto, using(crate::specs::Room::reaches), unfolding(model::specs::Tests::transmit_full))]
fn transmit_full(left: usize, flying: usize) -> bool
    ensures { result ≡ transmit_full left flying }
{
    if left < SENT_LIMIT {
        SENT_LIMIT - left <= flying
    } else {
        true
    }
}

// 5: waiting host bytes plus new ones exceed 1,024.
#[tactic(auto, using(crate::specs::Room::exceeds), unfolding(model::specs::Tests::host_full))]
fn host_full(waiting: usize, new: usize) -> bool
    ensures { result ≡ host_full waiting new }
{
    if waiting <= HOST_LIMIT {
        HOST_LIMIT - waiting < new
    } else {
        true
    }
}

// 6: a byte or more, 64 runs wait, and the date is later than the last run's. Dates in subcycles.
fn runs_full(new: usize, runs: usize, last_date: u64, date: u64) -> bool
    ensures { result ≡ runs_full new runs last_date date }
{
    if new == 0 {
        return false;
    }
    if runs < RUNS_LIMIT {
        return false;
    }
    last_date < date
}

// 7: the period is above 1,000,000 cycles.
fn period_too_long(period: u64) -> bool
    ensures { result ≡ period_too_long period }
{
    PERIOD_LIMIT < period
}

// 8: the lent buffer is below 1,152 bytes.
fn buffer_too_short(room: usize) -> bool
    ensures { result ≡ buffer_too_short room }
{
    room < SENT_LIMIT
}

// Refused where the test passes.
#[tactic(auto, unfolding(crate::specs::Refusals::verdict, model::specs::Tests::refuse_if))]
fn refuse_if(test: bool, refusal: Refusal) -> Verdict
    ensures { verdict result ≡ refuse_if test refusal none }
{
    if test { Err(refusal) } else { Ok(()) }
}

// 2 and 3 come first in every dated call.
#[tactic(auto, using(crate::specs::Chains::tested), unfolding(crate::specs::Refusals::dates_only, crate::specs::Refusals::dates))]
fn date_first(cycle: u64, last: u64) -> Verdict
    ensures { verdict result ≡ dates_only cycle last }
{
    refuse_if(past_end(cycle), Refusal::DatePastEnd)?;
    refuse_if(went_back(last, cycle), Refusal::DateWentBack)
}

// A dated call with no test of its own: what comes first is then all.
pub fn date_refusal(cycle: u64, last: u64) -> Verdict
    ensures { verdict result ≡ dates_only cycle last }
{
    date_first(cycle, last)
}

// A FIFO write.
#[tactic(auto, using(crate::specs::Chains::dated), unfolding(crate::specs::Refusals::sending))]
pub fn send_refusal(cycle: u64, last: u64, left: usize, flying: usize) -> Verdict
    ensures { verdict result ≡ sending cycle last left flying }
{
    date_refusal(cycle, last)?;
    refuse_if(transmit_full(left, flying), Refusal::TransmitFull)
}

#[tactic(auto, using(crate::specs::Chains::dated), unfolding(crate::specs::Refusals::clocking))]
pub fn clock_refusal(cycle: u64, last: u64, period: u64) -> Verdict
    ensures { verdict result ≡ clocking cycle last period }
{
    date_refusal(cycle, last)?;
    refuse_if(period_too_long(period), Refusal::PeriodTooLong)
}

// take_tx: what take_written is refused for comes behind the dates.
#[tactic(auto, using(crate::specs::Chains::dates_and), unfolding(crate::specs::Refusals::taking_tx))]
pub fn take_refusal(cycle: u64, last: u64, room: usize) -> Verdict
    ensures { verdict result ≡ taking_tx cycle last room }
{
    date_refusal(cycle, last).and(written_refusal(room))
}

// take_written, which is undated.
#[tactic(auto, unfolding(crate::specs::Refusals::taking_written))]
pub fn written_refusal(room: usize) -> Verdict
    ensures { verdict result ≡ taking_written room }
{
    refuse_if(buffer_too_short(room), Refusal::BufferTooShort)
}

// The host's side of a receive: how many bytes wait, in how many runs, and the last run's date in subcycles.
#[derive(Clone, Copy)]
pub struct Waiting {
    pub bytes: usize,
    pub runs: usize,
    pub last_date: u64,
}

// `receive` of `new` bytes dated `date`, in subcycles.
#[tactic(auto, using(crate::specs::Chains::dated, crate::specs::Chains::refuse_rest), unfolding(crate::specs::Refusals::receiving))]
pub fn receive_refusal(cycle: u64, last: u64, waiting: Waiting, new: usize, date: u64) -> Verdict
    ensures { verdict result ≡ receiving cycle last waiting new date }
{
    date_refusal(cycle, last)?;
    let full = host_full(waiting.bytes, new);
    let runs = runs_full(new, waiting.runs, waiting.last_date, date);
    refuse_if(full, Refusal::HostFull)?;
    refuse_if(runs, Refusal::RunsFull)
}
