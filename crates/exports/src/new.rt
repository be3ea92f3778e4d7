// Set-up, for Rust and C: the core in plain numbers. The caller owns the slots of the queues, and whatever stands in them serves.
ghost use Rattle.std.specs.Prelude.{◌≡◌};
ghost use Rattle.exports.specs.SetsUp.{SetsUpPlainly};

use ffi::PlainCore;
use ffi::results::PlainReply;

// Sixteen words, in the order of set-up.
#[repr(C)]
#[derive(Clone, Copy)]
pub struct Sixteen {
    pub words: [u32; 16],
}

// A new core. Where set-up is refused it is not one to call.
#[repr(C)]
#[derive(Clone, Copy)]
pub struct PlainNew {
    pub core: PlainCore,
    pub reply: PlainReply,
}

fn made(offsets: [u32; 16], resets: [u32; 16]) -> PlainNew
    ensures { SetsUpPlainly offsets resets result.core result.reply }
{
    let new = calls::set_up::new_core(offsets, resets);
    let core = ffi::plain_core(new);
    let answer = replies::refusals::set_up_reply(offsets);
    let reply = ffi::results::set_up_reply(answer);
    PlainNew { core, reply }
}

#[unsafe(no_mangle)]
pub extern "C" fn wondraxu_new(offsets: Sixteen, resets: Sixteen) -> PlainNew
    ensures { SetsUpPlainly offsets.words resets.words result.core result.reply }
{
    let places = offsets.words;
    let words = resets.words;
    made(places, words)
}
