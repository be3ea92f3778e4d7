// A refused call answers its number alone.
ghost use Rattle.std.specs.Prelude.{◌≡◌};
ghost use Rattle.text.specs.Output.{Put};
ghost use Rattle.text.specs.Chains.{Room};
ghost use Rattle.answers.specs.Replies.{refusal_text};

use model::Refusal;
use replies::refusals::number_of;
use text::output::put;
use text::spelling::put_decimal;

fn wide(number: u32) -> u64
    ensures { result ≡ number }
{
    number as u64
}

// Puts the number, and the end of the line.
pub fn put_refusal(out: &mut [u8], at: usize, refusal: Refusal) -> usize
    requires { Room (refusal_text refusal) out.old at }
    ensures { Put (refusal_text refusal) out.old at out.new result }
{
    let number = put_decimal(out, at, wide(number_of(refusal)));
    put(out, number, b"\n")
}
