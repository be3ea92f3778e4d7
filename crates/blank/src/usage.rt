// How a program is used.
// The same stands in replay: of what only reads arguments and writes a function of a library could promise nothing, and each has to.
use std::env::{Env, FillError};
use text::names::same;

// Whether there is an argument of this number, from 1 on.
pub(crate) fn has_argument(rt: &HostRuntime, number: usize) -> bool {
    let mut word = [0u8; 16];
    !matches!(rt.arg(number, &mut word), Err(FillError::NotPresent))
}

fn asks_for_help(rt: &HostRuntime) -> bool {
    let mut word = [0u8; 16];
    matches!(rt.arg(1, &mut word), Ok(n) if same(&word[..n], b"--help"))
}

// `--help` alone asks for it; any other argument is a mistake. A write that fails is passed over.
pub(crate) fn show(rt: &HostRuntime, usage: &[u8]) {
    let _ = if asks_for_help(rt) && !has_argument(rt, 2) {
        rt.write_all(usage)
    } else {
        rt.stderr().write_all(usage)
    };
}
