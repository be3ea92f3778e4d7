// Numbers: decimal digits, or `0x` and hexadecimal ones, at most a limit.
ghost use Rattle.std.specs.Prelude.{◌≡◌, ◌<◌, ◌≤◌, IfSome};
ghost use Rattle.text.specs.Numbers.{number_in, number_of, number32_of};

use crate::digits::digit;

const LIMIT_32: u64 = 4294967295;

// The number that the digits of `s` make in a base, where it is at most `limit`.
fn read_digits(s: &[u8], base: u64, limit: u64) -> Option<u64>
    requires { (0 < base) × (base ≤ 16) }
    ensures value { result ≡ number_in base limit s.now }
    ensures low { IfSome result (λ n. n ≤ limit) }
{
    if s.is_empty() {
        return None;
    }
    let most = limit / base;
    let mut value = 0;
    for c in s {
        let d = digit(*c)?;
        if d >= base {
            return None;
        }
        if value > most {
            return None;
        }
        let shifted = value * base;
        if d > limit - shifted {
            return None;
        }
        value = shifted + d;
    }
    Some(value)
}

// The number that a word is, where it is at most `limit`. No sign, no `_` and no `0X`; zeros in front and any length.
pub fn read_number(s: &[u8], limit: u64) -> Option<u64>
    ensures value { result ≡ number_of limit s.now }
    ensures low { IfSome result (λ n. n ≤ limit) }
{
    // No `0x` stands in front of so short a word, and most numbers of some lines are that short.
    if s.len() < 2 {
        return read_digits(s, 10, limit);
    }
    match s.strip_prefix(b"0x") {
        Some(digits) => read_digits(digits, 16, limit),
        None => read_digits(s, 10, limit),
    }
}

// The same for a number of 32 bits.
pub fn read_number_32(s: &[u8]) -> Option<u32>
    ensures { result ≡ number32_of s.now }
{
    let value = read_number(s, LIMIT_32)?;
    Some(value as u32)
}
