// Several bytes at once: a ring is two straight runs, before and after the end of its slots, and each is a plain copy.
ghost use Rattle.std.specs.Prelude.{◌≡◌, ◌++◌, ◌+◌, ◌≤◌, length, drop};
ghost use Rattle.std.proofs.Math.Seq.{paste};
ghost use Rattle.queue.specs.Cursors.{Held, slot_of, elems, pushed_by};
ghost use Rattle.queue.specs.Append.{stored_from};

use crate::Cursor;

// `n` bytes of `src`, those from `from` on, to `dst` from `at` on. Not by `copy_from_slice`: who links the exported calls would need
// memmove for it.
fn copy_run(dst: &mut [u8], at: usize, src: &[u8], from: usize, n: usize)
    requires { (at + n ≤ length dst.old) × (from + n ≤ length src.now) }
    ensures { dst.new ≡ paste dst.old at (drop from src.now) n }
{
    for i in 0..n {
        dst[at + i] = src[from + i];
    }
}

// `bytes` at the back, in order.
pub fn append(cursor: Cursor, cap: usize, slots: &mut [u8], bytes: &[u8]) -> Cursor
    requires { Held cap cursor × (length slots.old ≡ cap) × (cursor.count + length bytes.now ≤ cap) }
    ensures value { result ≡ pushed_by (length bytes.now) cursor }
    ensures slots_after { slots.new ≡ stored_from cap slots.old (cursor.start + cursor.count) bytes.now }
{
    let n = bytes.len();
    let at = cursor.back(cap);
    let first = n.min(cap - at);
    copy_run(slots, at, bytes, 0, first);
    copy_run(slots, 0, bytes, first, n - first);
    Cursor {
        start: cursor.start,
        count: cursor.count + n,
    }
}

// Copies the elements, in order, to the front of `out` and writes nothing after them. Gives how many they are.
pub fn copy_out(cursor: Cursor, cap: usize, slots: &[u8], out: &mut [u8]) -> usize
    requires { Held cap cursor × (length slots.now ≡ cap) × (cursor.count ≤ length out.old) }
    ensures value { result ≡ cursor.count }
    ensures out_after { out.new ≡ elems (slot_of slots.now 0) cap cursor ++ drop cursor.count out.old }
{
    let start = cursor.start;
    let count = cursor.count;
    let first = count.min(cap - start);
    copy_run(out, 0, slots, start, first);
    copy_run(out, first, slots, 0, count - first);
    count
}
