// What follows a call's name: numbers, and then a last word of another kind, or pairs, or nothing. Of the numbers, `count` in all,
// the first `wide` have 64 bits and the others 32.
ghost use Rattle.std.specs.Prelude.{◌≡◌};
ghost use Rattle.trace.specs.Forms.{takes as Forms·takes, form_of};

use crate::names::Name;

#[derive(Clone, Copy, Debug, PartialEq, Eq)]
pub enum Last {
    None,
    // 0 or 1.
    Bit,
    // A length of a lent buffer.
    Length,
    Bytes,
    // Numbers of 64 bits in pairs, as many as the line has.
    Pairs,
}

#[derive(Clone, Copy, Debug, PartialEq, Eq)]
pub struct Form {
    pub wide: usize,
    pub count: usize,
    pub last: Last,
}

fn takes(wide: usize, count: usize, last: Last) -> Form
    ensures { result ≡ Forms·takes wide count last }
{
    Form { wide, count, last }
}

#[tactic(auto, unfolding(crate::specs::Forms::form_of))]
pub fn form_of(name: Name) -> Form
    ensures { result ≡ form_of name }
{
    match name {
        Name::Setup => takes(0, 32, Last::None),
        Name::Read => takes(1, 2, Last::None),
        Name::Write => takes(1, 3, Last::None),
        Name::WriteRow => takes(1, 1, Last::Bytes),
        Name::Receive => takes(2, 2, Last::Bytes),
        Name::Wake => takes(1, 1, Last::None),
        Name::Watch => takes(1, 1, Last::Bit),
        Name::Reset => takes(1, 1, Last::None),
        Name::PowerDown => takes(1, 1, Last::None),
        Name::Clock => takes(2, 2, Last::None),
        Name::TakeTx => takes(1, 1, Last::Length),
        Name::TakeWritten => takes(0, 0, Last::Length),
        Name::HasLeft => takes(0, 0, Last::None),
        Name::HostPending => takes(0, 0, Last::None),
        Name::Figures => takes(0, 0, Last::Pairs),
    }
}
