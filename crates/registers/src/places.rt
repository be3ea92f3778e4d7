// The offset becomes a register's place first; the decisions are over places. Carried over from inkemu's uart.rs and
// changed: its match over offsets.
ghost use Rattle.std.specs.Prelude.{◌≡◌};
ghost use Rattle.model.specs.Map.{register_of, is_fifo};
ghost use Rattle.model.specs.Registers.{looks as Registers·looks};
ghost use Rattle.registers.specs.Places.{register_at};

// A register's place, in the order of set-up; Unknown for an offset that the register map lacks.
#[derive(Clone, Copy, PartialEq, Eq, Debug)]
pub enum Place {
    Fifo,
    IntRaw,
    IntSt,
    IntEna,
    IntClr,
    Clkdiv,
    Status,
    FsmStatus,
    Conf0,
    Conf1,
    ClkConf,
    IdleConf,
    Rs485Conf,
    AtCmdChar,
    MemConf,
    MemRxStatus,
    Unknown,
}

// The places in the order of set-up.
const PLACES: [Place; 16] = [
    Place::Fifo,
    Place::IntRaw,
    Place::IntSt,
    Place::IntEna,
    Place::IntClr,
    Place::Clkdiv,
    Place::Status,
    Place::FsmStatus,
    Place::Conf0,
    Place::Conf1,
    Place::ClkConf,
    Place::IdleConf,
    Place::Rs485Conf,
    Place::AtCmdChar,
    Place::MemConf,
    Place::MemRxStatus,
];

// The place of an offset in a register map: the first that has it.
pub fn place_of(offsets: [u32; 16], offset: u32) -> Place
    ensures { register_at result ≡ register_of offsets offset }
{
    for (at, &known) in offsets.iter().enumerate() {
        if known == offset {
            return PLACES[at];
        }
    }
    Place::Unknown
}

// Whether a byte is read or sent there, and not a word.
pub fn is_fifo(place: Place) -> bool
    ensures { result ≡ is_fifo (register_at place) }
{
    place == Place::Fifo
}

// Whether the firmware looks at the receiver by reading there.
pub fn looks(place: Place) -> bool
    ensures { result ≡ Registers·looks (register_at place) }
{
    matches!(
        place,
        Place::Fifo | Place::IntRaw | Place::IntSt | Place::Status
    )
}
