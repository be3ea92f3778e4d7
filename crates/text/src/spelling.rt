// Numbers as text: decimal, and `0x` with eight hexadecimal digits.
ghost use Rattle.std.specs.Prelude.{◌≡◌, ◌+◌, ◌*◌, ◌/◌, ◌%◌, ◌^◌, ◌<◌, ◌≤◌, length, drop};
ghost use Rattle.text.specs.Digits.{letter as Digits·letter};
ghost use Rattle.text.specs.Decimal.{decimal};
ghost use Rattle.text.specs.HexText.{hex_word};
ghost use Rattle.text.specs.Output.{Put};

use crate::letters::letter;
use crate::output::put;

// The letter of a value's last decimal digit.
fn last_letter(n: u64) -> u8
    ensures { result ≡ Digits·letter (n % 10) }
{
    letter((n % 10) as u8)
}

// Stores the digits of `n` at the back of `to` and gives where they start. No `for` counts them: how many there are shows at the end.
fn spell_decimal(to: &mut [u8], n: u64) -> usize
    requires { length to.old ≡ 20 }
    ensures { (result ≤ 20) × (drop result to.new ≡ decimal n) }
{
    let mut start = 19;
    let mut rest = n;
    while rest > 9 {
        to[start] = last_letter(rest);
        rest /= 10;
        start -= 1;
    }
    to[start] = last_letter(rest);
    start
}

// Puts a number in decimal digits and gives the place after them.
pub fn put_decimal(out: &mut [u8], at: usize, n: u64) -> usize
    ensures { Put (decimal n) out.old at out.new result }
{
    let mut text = [0u8; 20];
    let start = spell_decimal(&mut text, n);
    put(out, at, &text[start..20])
}

// The letter of the hexadecimal digit of `word` that starts at a bit.
fn hex_letter(word: u32, low: u32) -> u8
    requires { low < 32 }
    ensures { result ≡ Digits·letter (word / 2 ^ low % 16) }
{
    letter(((word >> low) % 16) as u8)
}

// Puts `0x` and the eight hexadecimal digits of a word and gives the place after them.
pub fn put_word(out: &mut [u8], at: usize, word: u32) -> usize
    ensures { Put (hex_word word) out.old at out.new result }
{
    let d7 = hex_letter(word, 28);
    let d6 = hex_letter(word, 24);
    let d5 = hex_letter(word, 20);
    let d4 = hex_letter(word, 16);
    let d3 = hex_letter(word, 12);
    let d2 = hex_letter(word, 8);
    let d1 = hex_letter(word, 4);
    let d0 = hex_letter(word, 0);
    let text = [b'0', b'x', d7, d6, d5, d4, d3, d2, d1, d0];
    put(out, at, &text)
}
