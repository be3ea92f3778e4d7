// Departures: bytes in flight leave once their dates have come.
ghost use Rattle.std.specs.Prelude.{◌≡◌, List, ℕ, ◌+◌, ◌≤◌, length};
ghost use Rattle.model.specs.Settle.{gone as Settle·gone};
ghost use Rattle.queue.specs.Cursors.{Held};
ghost use Rattle.device.specs.Holds.{flight_of};
ghost use Rattle.device.specs.Leaves.{Leaves};

use queue::Cursor;

// How many of the first bytes in flight have gone by a date, in subcycles: their dates alone decide, whatever the bytes.
pub fn gone(gone_at: &[u64; 129], flight: Cursor, date: u64) -> usize
    requires { Held 129 flight × (length gone_at.now ≡ 129) }
    ensures { ((bytes : List ℕ) → result ≡ Settle·gone date (flight_of gone_at.now bytes flight))
        × (result ≤ flight.count) }
{
    let mut n: usize = 0;
    let mut rest = flight;
    while 0 < rest.count {
        let first = rest.start;
        if date < gone_at[first] {
            break;
        }
        rest = rest.popped(129);
        n = n + 1;
    }
    n
}

// The cursors of the bytes in flight and of those that have left.
#[derive(Clone, Copy)]
pub struct Transmitter {
    pub flight: Cursor,
    pub tx: Cursor,
}

// The first n bytes in flight leave.
pub fn leave<'a>(
    flight: Cursor,
    tx: Cursor,
    n: usize,
    bytes: &'a [u8; 129],
    left: &'a mut [u8; 1152],
) -> Transmitter
    requires { Held 129 flight × Held 1152 tx × (length bytes.now ≡ 129) × (length left.old ≡ 1152)
        × (n ≤ flight.count) × (tx.count + n ≤ 1152) }
    ensures { Leaves n bytes.now flight tx left.old result.flight result.tx left.new }
{
    let mut from = flight;
    let mut to = tx;
    let mut i: usize = 0;
    while i < n {
        let first = from.start;
        let byte = bytes[first];
        let next = to.back(1152);
        left[next] = byte;
        to = to.pushed();
        from = from.popped(129);
        i = i + 1;
    }
    Transmitter {
        flight: from,
        tx: to,
    }
}
