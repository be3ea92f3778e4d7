// Where a byte stands next in a text, and where another byte does. A place past the end stays where it is.
ghost use Rattle.std.specs.Prelude.{◌≡◌};
ghost use Rattle.text.specs.Seek.{seek as Seek·seek, is_byte, is_other};

// The place of the first `byte` from `at` on; the end where there is none.
pub fn seek(s: &[u8], at: usize, byte: u8) -> usize
    ensures { result ≡ Seek·seek (is_byte byte) s.now at }
{
    let rest = &s[at.min(s.len())..];
    at + rest.iter().take_while(|b| **b != byte).count()
}

// The place of the first byte from `at` on that is not `byte`; the end where there is none.
pub fn skip(s: &[u8], at: usize, byte: u8) -> usize
    ensures { result ≡ Seek·seek (is_other byte) s.now at }
{
    let rest = &s[at.min(s.len())..];
    at + rest.iter().take_while(|b| **b == byte).count()
}
