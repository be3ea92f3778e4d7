// The letter of a digit's value.
ghost use Rattle.std.specs.Prelude.{◌≡◌, ◌<◌};
ghost use Rattle.text.specs.Digits.{letter as Digits·letter};

// The lower-case hexadecimal digit of a value.
#[tactic(auto, unfolding(crate::specs::Digits::letter))]
pub fn letter(d: u8) -> u8
    requires { d < 16 }
    ensures { result ≡ Digits·letter d }
{
    if d < 10 { b'0' + d } else { b'a' + (d - 10) }
}
