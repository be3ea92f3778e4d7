// Words and numbers on standard output.
use model::Date;
use std::io;

pub(crate) fn text(rt: &HostRuntime, s: &[u8]) -> io::Result<()> {
    rt.write_all(s)
}

pub(crate) fn number(rt: &HostRuntime, n: u64) -> io::Result<()> {
    print!(rt; " {n}")
}

pub(crate) fn word(rt: &HostRuntime, n: u32) -> io::Result<()> {
    number(rt, n as u64)
}

pub(crate) fn truth(rt: &HostRuntime, b: bool) -> io::Result<()> {
    if b { text(rt, b" 1") } else { text(rt, b" 0") }
}

pub(crate) fn date(rt: &HostRuntime, d: Date) -> io::Result<()> {
    match d {
        None => text(rt, b" -"),
        Some(n) => number(rt, n),
    }
}
