// Lines of numbers with a label.
ghost use Rattle.std.specs.Prelude.{◌≡◌};

use std::io;

pub(crate) fn number(rt: &HostRuntime, label: &[u8], n: u64) -> io::Result<()> {
    rt.write_all(label)?;
    println!(rt; "{n}")
}

pub fn wide(byte: u8) -> u64
    ensures { result ≡ byte }
{
    byte as u64
}
