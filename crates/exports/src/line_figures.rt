// The figures of a line, for Rust and C: the starts and the ends of its frames by pointer. It knows no UART.
ghost use Rattle.std.specs.Prelude.{◌≡◌};
ghost use Rattle.figures.specs.Figures.{figures_of};
ghost use Rattle.ffi.specs.Figures.{plain_figures};

use ffi::line_figures::PlainFigures;

#[unsafe(no_mangle)]
pub extern "C" fn wondraxu_figures<'a>(starts: &'a [u64], ends: &'a [u64]) -> PlainFigures
    ensures { result ≡ plain_figures (figures_of starts.now ends.now) }
{
    let answer = figures::frames::figures(starts, ends);
    ffi::line_figures::plain_figures(answer)
}
