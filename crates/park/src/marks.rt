// What stands for a mark, a source or a date that may be missing, as a number.
ghost use Rattle.std.specs.Prelude.{◌≡◌};
ghost use Rattle.model.specs.Numbers.{instant_of};
ghost use Rattle.form.specs.Form.{mark_of, date_mark, source_number, frame_mark, frame_source};
ghost use Rattle.device.specs.Holds.{on_the_line};

use line::Receiving;
use model::{Date, Source};

pub(crate) fn mark(yes: bool) -> u64
    ensures { result ≡ mark_of yes }
{
    if yes { 1 } else { 0 }
}

pub(crate) fn date_mark(date: Date) -> u64
    ensures { result ≡ date_mark date }
{
    match date {
        None => 0,
        Some(_) => 1,
    }
}

// 0 where there is no date.
pub(crate) fn instant(date: Date) -> u64
    ensures { result ≡ instant_of date }
{
    match date {
        None => 0,
        Some(at) => at,
    }
}

// One more than the SCLK_SEL, and 0 for none.
pub(crate) fn source_number(source: Source) -> u64
    ensures { result ≡ source_number source }
{
    match source {
        Source::None => 0,
        Source::Sel0 => 1,
        Source::Sel2 => 3,
    }
}

// Of the byte on the line: 0 for none, 1 where its start was not heard, 2 where it was. Which byte it is does not matter.
pub(crate) fn frame_mark(receiving: Receiving) -> u64
    ensures { result ≡ frame_mark (on_the_line receiving 0) }
{
    match receiving {
        None => 0,
        Some(frame) => { if frame.heard { 2 } else { 1 } }
    }
}

pub(crate) fn frame_source(receiving: Receiving) -> u64
    ensures { result ≡ frame_source (on_the_line receiving 0) }
{
    match receiving {
        None => 0,
        Some(frame) => {
            let source = frame.timed_on;
            source_number(source)
        }
    }
}
