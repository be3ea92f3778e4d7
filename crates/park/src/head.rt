// How long a form is, and its head: how many parts there are, and where each lies.
ghost use Rattle.std.specs.Prelude.{◌≡◌, map, ◌+◌, ◌≤◌, length};
ghost use Rattle.form.specs.Cells.{field_bytes};
ghost use Rattle.form.specs.Form.{short};
ghost use Rattle.park.specs.Puts.{Puts};
ghost use Rattle.park.specs.Rings.{line_count};
ghost use Rattle.park.specs.Head.{Cursors, head_numbers, head_of, length_of};

use crate::put::put_numbers;
use device::Core;
use line::Receiving;

// How many bytes are on the line: one or none.
fn line_count(receiving: Receiving) -> usize
    ensures { (result ≡ line_count receiving) × (result ≤ 1) }
{
    match receiving {
        None => 0,
        Some(_) => 1,
    }
}

// The length of the state's form.
pub(crate) fn form_length(core: Core) -> usize
    requires { Cursors core }
    ensures { result ≡ length_of core }
{
    let receiving = core.receiving;
    let line = line_count(receiving);
    let flight = core.flight.count;
    let waiting = line + core.host.count + 10 * core.runs.count + core.rx.count;
    234 + 8 * flight + core.tx.count + flight + waiting
}

// Seven parts: an offset and a length for each. The first two have one length in every form.
fn head(flight: u32, tx: u32, line: u32, host: u32, runs: u32, rx: u32) -> [u32; 15]
    requires { (flight ≤ 129) × (tx ≤ 1152) × (line ≤ 1) × (host ≤ 1024) × (runs ≤ 64) × (rx ≤ 128) }
    ensures { result ≡ head_numbers flight tx line host runs rx }
{
    let dates = 60 + 8 * flight;
    let sent = tx + flight;
    let heard = line + host;
    let dated = 10 * runs;
    let sent_at = 174 + dates;
    let heard_at = sent_at + sent;
    let dated_at = heard_at + heard;
    let rx_at = dated_at + dated;
    [
        7, 30, 108, 138, 36, 174, dates, sent_at, sent, heard_at, heard, dated_at, dated, rx_at, rx,
    ]
}

pub(crate) fn put_head(out: &mut [u8], core: Core) -> usize
    requires { Cursors core × (30 ≤ length out.old) }
    ensures { Puts 30 (field_bytes (map short (head_of core))) out.old 0 out.new result }
{
    let receiving = core.receiving;
    let line = line_count(receiving) as u32;
    let numbers = head(
        core.flight.count as u32,
        core.tx.count as u32,
        line,
        core.host.count as u32,
        core.runs.count as u32,
        core.rx.count as u32,
    );
    put_numbers(out, 0, 2, &numbers)
}
