// Of what a call asks: a set-up makes a UART, figures need none, and every other call is of the one that is set up.
ghost use Rattle.std.specs.Prelude.{◌≡◌};
ghost use Rattle.trace.specs.Asks.{asks_of};

use crate::names::Name;

#[derive(Clone, Copy, Debug, PartialEq, Eq)]
pub enum Asks {
    SetUp,
    Figures,
    Uart,
}

pub fn asks_of(name: Name) -> Asks
    ensures { result ≡ asks_of name }
{
    match name {
        Name::Setup => Asks::SetUp,
        Name::Figures => Asks::Figures,
        Name::Read
        | Name::Write
        | Name::WriteRow
        | Name::Receive
        | Name::Wake
        | Name::Watch
        | Name::Reset
        | Name::PowerDown
        | Name::Clock
        | Name::TakeTx
        | Name::TakeWritten
        | Name::HasLeft
        | Name::HostPending => Asks::Uart,
    }
}
