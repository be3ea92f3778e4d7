// The names of the calls.
ghost use Rattle.std.specs.Prelude.{◌≡◌};
ghost use Rattle.trace.specs.Names.{letters, name_of};

use text::names::same;

#[derive(Clone, Copy, Debug, PartialEq, Eq)]
pub enum Name {
    Setup,
    Read,
    Write,
    WriteRow,
    Receive,
    Wake,
    Watch,
    Reset,
    PowerDown,
    Clock,
    TakeTx,
    TakeWritten,
    HasLeft,
    HostPending,
    Figures,
}

// The calls of which a trace has most come first.
const NAMES: [Name; 15] = [
    Name::Read,
    Name::Write,
    Name::Receive,
    Name::WriteRow,
    Name::Wake,
    Name::TakeTx,
    Name::Clock,
    Name::Watch,
    Name::Reset,
    Name::PowerDown,
    Name::HasLeft,
    Name::HostPending,
    Name::TakeWritten,
    Name::Setup,
    Name::Figures,
];

// A call's name as it is written.
pub fn letters(name: Name) -> &'static [u8]
    ensures { result.now ≡ letters name }
{
    match name {
        Name::Setup => b"setup",
        Name::Read => b"read",
        Name::Write => b"write",
        Name::WriteRow => b"write_row",
        Name::Receive => b"receive",
        Name::Wake => b"wake",
        Name::Watch => b"watch",
        Name::Reset => b"reset",
        Name::PowerDown => b"power_down",
        Name::Clock => b"clock",
        Name::TakeTx => b"take_tx",
        Name::TakeWritten => b"take_written",
        Name::HasLeft => b"has_left",
        Name::HostPending => b"host_pending",
        Name::Figures => b"figures",
    }
}

// The call that a word names.
pub fn name_of(word: &[u8]) -> Option<Name>
    ensures { result ≡ name_of word.now }
{
    NAMES
        .iter()
        .copied()
        .find(|name| same(word, letters(*name)))
}
