// Standard output: what is put to it, and when that is written.
ghost use Rattle.streams.specs.Outputs.{Flushed, KeepsUp};

use crate::failure::tell;
use text::parts::within;

// It is filled up to `at`; nothing is put to it or written after a write that failed.
#[derive(Clone, Copy, Debug, PartialEq, Eq)]
pub struct Output {
    pub at: usize,
    pub failed: bool,
}

// Writes the first `count` bytes of `out`. Where that fails it says so by `name` on standard error, and answers false.
fn write(rt: &HostRuntime, out: &[u8], count: usize, name: &[u8]) -> bool {
    let n = within(count, out);
    match rt.write_all(&out[..n]) {
        Ok(()) => true,
        Err(error) => {
            tell(rt, error, name);
            false
        }
    }
}

// Writes all that was put to it. A failure is told by `name`.
pub fn flush(rt: &HostRuntime, output: Output, out: &[u8], name: &[u8]) -> Output
    ensures { Flushed output result }
{
    if output.failed {
        return output;
    }
    if write(rt, out, output.at, name) {
        return Output {
            at: 0,
            failed: false,
        };
    }
    Output {
        at: output.at,
        failed: true,
    }
}

// The same before the next read, where no line stands there, and where it is filled further than `full`.
pub fn keep_up(
    rt: &HostRuntime,
    output: Output,
    line: bool,
    full: usize,
    out: &[u8],
    name: &[u8],
) -> Output
    ensures { KeepsUp line full output result }
{
    if line && output.at <= full {
        return output;
    }
    flush(rt, output, out, name)
}
