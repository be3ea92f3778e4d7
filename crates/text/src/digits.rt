// The value of a digit's letter.
ghost use Rattle.std.specs.Prelude.{◌≡◌, ◌<◌, MatchOption};
ghost use Rattle.text.specs.Digits.{digit_value};

// The value of a hexadecimal digit of either case; any other byte has none.
#[tactic(auto, unfolding(crate::specs::Digits::digit_value))]
pub fn digit(c: u8) -> Option<u64>
    ensures { MatchOption result (digit_value c ≡ 16) (λ d. (d ≡ digit_value c) × (d < 16)) }
{
    match c {
        b'0'..=b'9' => Some((c - b'0') as u64),
        b'A'..=b'F' => Some((c - b'A' + 10) as u64),
        b'a'..=b'f' => Some((c - b'a' + 10) as u64),
        _ => None,
    }
}
