// Lines: what stands of the next one, up to its end.
ghost use Rattle.std.specs.Prelude.{◌≡◌};
ghost use Rattle.text.specs.Lines.{piece_at};

use crate::scan::seek;

// A part of a line, up to `end`; `whole` says that the line ends there. The next one begins at `next`.
#[derive(Clone, Copy, Debug, PartialEq, Eq)]
pub struct Piece {
    pub end: usize,
    pub next: usize,
    pub whole: bool,
}

// What stands in `s` from `at` on, up to the first line feed, or to the end of `s`.
pub fn piece_at(s: &[u8], at: usize) -> Piece
    ensures { result ≡ piece_at s.now at }
{
    let end = seek(s, at, b'\n');
    if end < s.len() {
        Piece {
            end,
            next: end + 1,
            whole: true,
        }
    } else {
        Piece {
            end,
            next: end,
            whole: false,
        }
    }
}
