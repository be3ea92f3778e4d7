// Standard input, a chunk at a time.
ghost use Rattle.std.specs.Prelude.{◌≡◌, false};
ghost use Rattle.streams.specs.Reads.{Reads};

use crate::failure::tell;
use std::io::{Error, ErrorKind, Read};
use text::input::Input;

// A read that a signal interrupted is made again. After any other that failed no more comes, and no line is left.
fn fail(rt: &HostRuntime, mut input: Input, error: Error, name: &[u8]) -> Input
    requires { input.whole ≡ false }
    ensures { Reads input result }
{
    if error.kind() == ErrorKind::Interrupted {
        return input;
    }
    tell(rt, error, name);
    input.len = 0;
    input.long = false;
    input.more = false;
    input
}

// Takes in the next chunk, where no whole line is left of the one before. No more comes after the last one, nor once the caller
// says `stop`. A failure is told by `name`.
pub fn read_more(
    rt: &HostRuntime,
    mut input: Input,
    stop: bool,
    chunk: &mut [u8; 65536],
    name: &[u8],
) -> Input
    ensures { Reads input result }
{
    if input.whole {
        return input;
    }
    if stop {
        input.more = false;
        return input;
    }
    match rt.stdin().read(chunk) {
        Ok(0) => {
            input.more = false;
            input
        }
        Ok(n) => {
            input.at = 0;
            input.end = n;
            input
        }
        Err(error) => fail(rt, input, error, name),
    }
}
