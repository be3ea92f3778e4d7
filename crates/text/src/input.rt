// A text that comes in chunks, line by line, in constant memory: a line is gathered in a lent buffer, piece by piece.
ghost use Rattle.std.specs.Prelude.{◌≡◌, true, ◌-◌, ltb, length};
ghost use Rattle.text.specs.Pick.{pick};
ghost use Rattle.text.specs.Input.{begun, has_line, fresh, gathered, line_after, filled};

use crate::lines::piece_at;
use crate::output::{put, room};
use crate::parts::within;

// Of the chunk the bytes from `at` up to `end` are not passed yet. The line that has begun stands in the first `len` bytes of
// the buffer, unless it is too long for it; `whole` says that it ends. `more` says that another chunk may come.
#[derive(Clone, Copy, Debug, PartialEq, Eq)]
pub struct Input {
    pub at: usize,
    pub end: usize,
    pub len: usize,
    pub long: bool,
    pub whole: bool,
    pub more: bool,
}

// Nothing has come yet.
pub fn begin() -> Input
    ensures { result ≡ begun }
{
    Input {
        at: 0,
        end: 0,
        len: 0,
        long: false,
        whole: false,
        more: true,
    }
}

// Whether a line stands in the buffer: a whole one, or the last, which may lack its line feed.
pub fn has_line(input: Input) -> bool
    ensures { result ≡ has_line input }
{
    input.whole || !input.more && (input.long || 0 < input.len)
}

// Whether a line of `len` bytes is too long with `more` after them.
fn too_long(long: bool, size: usize, len: usize, more: usize) -> bool
    ensures { result ≡ pick (ltb (size - len) more) true long }
{
    long || room(size, len) < more
}

// One piece more of a line: what has no room makes it too long.
fn add_piece(input: Input, s: &[u8], line: &mut [u8]) -> Input
    ensures value { result ≡ gathered (length line.old) s.now input }
    ensures line_after { line.new ≡ line_after s.now input line.old }
{
    let at = within(input.at, s);
    let piece = piece_at(s, at);
    let end = piece.end;
    let part = &s[at..end];
    let long = too_long(input.long, line.len(), input.len, part.len());
    Input {
        at: piece.next,
        end: input.end,
        len: put(line, input.len, part),
        long,
        whole: piece.whole,
        more: input.more,
    }
}

// The same of what was read of a chunk.
fn gather(input: Input, chunk: &[u8], line: &mut [u8]) -> Input
    ensures value { result ≡ gathered (length line.old) (filled chunk.now input) input }
    ensures line_after { line.new ≡ line_after (filled chunk.now input) input line.old }
{
    let n = within(input.end, chunk);
    add_piece(input, &chunk[..n], line)
}

// The next line, or what the chunk has of it. After a whole line another begins.
pub fn next_line(mut input: Input, chunk: &[u8; 65536], line: &mut [u8; 65536]) -> Input
    ensures value { result ≡ gathered (length line.old) (filled chunk.now (fresh input)) (fresh input) }
    ensures line_after { line.new ≡ line_after (filled chunk.now (fresh input)) (fresh input)
        line.old }
{
    if input.whole {
        input.len = 0;
        input.long = false;
        input.whole = false;
    }
    gather(input, chunk, line)
}
