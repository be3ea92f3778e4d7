// The front of a text.
ghost use Rattle.std.specs.Prelude.{◌≡◌, min, length};
ghost use Rattle.io.specs.Counts.{IsPrefixLen};

// A count of bytes of `s`: no more than it has. The first clause is the form in which `&s[..n]` needs it.
pub fn within(count: usize, s: &[u8]) -> usize
    ensures prefix_len { IsPrefixLen result s.now }
    ensures value { result ≡ min count (length s.now) }
{
    count.min(s.len())
}
