// The notices of a report, in order, in an array of eight. Places that no notice has taken hold one fixed value.
// Which access notes what is carried over from inkemu's uart.rs and changed.

ghost use Rattle.std.specs.Prelude.{◌≡◌, ℕ, [], ◌∷◌};
ghost use Rattle.model.specs.Registers.{source_notes};
ghost use Rattle.replies.specs.Notices.{added, added_if, noted};

use model::{Notice, Source, Unsupported};

// The first `count` of these are notes of the call.
#[derive(Clone, Copy)]
pub struct Notices {
    pub list: [Notice; 8],
    pub count: usize,
}

// No notice yet. A function and no `impl Default`, whose contract would be a ghost member beside the same body: no plainer.
#[tactic(auto, unfolding(crate::specs::Notices::noted, model::specs::Replies::notices))]
pub fn none() -> Notices
    ensures { result ≡ noted [] }
{
    Notices {
        list: [Notice {
            what: Unsupported::UartOverflow,
        }; 8],
        count: 0,
    }
}

// The notices are taken and given back by value: calls chain from `none()` on, and each contract is one equation of values.
impl Notices {
    // One more behind the others; a ninth, which no call has, would be left out.
    #[tactic(auto, unfolding(crate::specs::Notices::added, model::specs::Numbers::choose))]
    fn note(mut self, what: Unsupported) -> Notices
        ensures { result ≡ added what self }
    {
        let at = self.count;
        if at < 8 {
            self.list[at] = Notice { what };
            self.count = at + 1;
        }
        self
    }

    // One more where the test passes.
    #[tactic(auto, unfolding(crate::specs::Notices::added_if, model::specs::Numbers::choose))]
    pub fn note_if(self, test: bool, what: Unsupported) -> Notices
        ensures { result ≡ added_if test what self }
    {
        if test { self.note(what) } else { self }
    }

    // A read of FIFO found it empty.
    pub fn note_empty_read(self) -> Notices
        ensures { result ≡ added Unsupported.UartEmptyRead self }
    {
        self.note(Unsupported::UartEmptyRead)
    }
}

// One notice alone.
fn one(what: Unsupported) -> Notices
    ensures { result ≡ noted (what ∷ []) }
{
    none().note(what)
}

// A FIFO write that is dropped.
pub fn overflow_notices() -> Notices
    ensures { result ≡ noted (Unsupported.UartOverflow ∷ []) }
{
    one(Unsupported::UartOverflow)
}

// A source without a frequency gives the notice with its SCLK_SEL.
#[tactic(auto, unfolding(model::specs::Registers::source_notes))]
fn source_notices(source: Source, sel0: Unsupported, sel2: Unsupported) -> Notices
    ensures { (notice : ℕ → Unsupported) → sel0 ≡ notice 0 → sel2 ≡ notice 2 → result ≡ noted (source_notes notice source) }
{
    match source {
        Source::None => none(),
        Source::Sel0 => one(sel0),
        Source::Sel2 => one(sel2),
    }
}

// A byte sent on a source without a frequency.
pub fn clock_notices(source: Source) -> Notices
    ensures { result ≡ noted (source_notes Unsupported.UartClock source) }
{
    source_notices(source, Unsupported::UartClock(0), Unsupported::UartClock(2))
}

// A mistimed reception that the firmware has not been told of.
pub fn receive_clock_notices(source: Source) -> Notices
    ensures { result ≡ noted (source_notes Unsupported.UartReceiveClock source) }
{
    source_notices(
        source,
        Unsupported::UartReceiveClock(0),
        Unsupported::UartReceiveClock(2),
    )
}
