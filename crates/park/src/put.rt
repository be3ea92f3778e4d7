// Numbers put into a lent buffer, the low byte first. Each function gives the place behind what it put.
ghost use Rattle.std.specs.Prelude.{◌+◌, ◌*◌, ◌≤◌, map, length};
ghost use Rattle.form.specs.Cells.{low_first, field_bytes};
ghost use Rattle.form.specs.Cells.{of_width};
ghost use Rattle.park.specs.Puts.{Puts};

// The low `width` bytes of a number.
pub(crate) fn put(out: &mut [u8], at: usize, width: usize, n: u64) -> usize
    requires { at + width ≤ length out.old }
    ensures { Puts width (low_first width n) out.old at out.new result }
{
    let mut rest = n;
    for i in 0..width {
        out[at + i] = (rest % 256) as u8;
        rest = rest / 256;
    }
    at + width
}

// Numbers of one width, one after the other.
pub(crate) fn put_numbers(out: &mut [u8], at: usize, width: usize, ns: &[u32]) -> usize
    requires { at + width * length ns.now ≤ length out.old }
    ensures { Puts (width * length ns.now) (field_bytes (map (of_width width) ns.now))
        out.old at out.new result }
{
    let mut place = at;
    for n in ns {
        place = put(out, place, width, *n as u64);
    }
    place
}
