// What set-up makes of sixteen offsets and sixteen reset words. Carried over from inkemu's uart.rs and changed.
ghost use Rattle.std.specs.Prelude.{◌≡◌};
ghost use Rattle.model.specs.Numbers.{without};
ghost use Rattle.model.specs.SetUp.{words_among, fifo_counts, map_of, new_control};
ghost use Rattle.calls.specs.NewCore.{new_core, new_parts};

use device::Core;
use line::marks;
use model::{Control, Line, RegisterMap, SetUp, Source, Words};
use queue::Cursor;
use timing::clock::Clock;

// STATUS bits 0-9, RXFIFO_CNT, and 16-25, TXFIFO_CNT.
const FIFO_COUNTS: u32 = 0x03FF03FF;

// The nine stored words among the sixteen.
fn words_among(resets: [u32; 16]) -> Words
    ensures { result ≡ words_among resets }
{
    Words {
        int_ena: resets[3],
        clkdiv: resets[5],
        conf0: resets[8],
        conf1: resets[9],
        clk_conf: resets[10],
        idle_conf: resets[11],
        rs485_conf: resets[12],
        at_cmd_char: resets[13],
        mem_conf: resets[14],
    }
}

// STATUS with both FIFO counts at zero.
fn idle_status(status: u32) -> u32
    ensures { result ≡ without fifo_counts status }
{
    status & !FIFO_COUNTS
}

// What set-up fixes.
pub fn register_map(offsets: [u32; 16], resets: [u32; 16]) -> RegisterMap
    ensures { result ≡ map_of offsets resets }
{
    let status = resets[6];
    let mem_rx_status = resets[15];
    RegisterMap {
        offsets: offsets,
        reset: words_among(resets),
        idle_status: idle_status(status),
        mem_rx_status: mem_rx_status,
    }
}

// INT_RAW has TXFIFO_EMPTY set always; the level is low until the first settling.
pub fn new_control(words: Words) -> Control
    ensures { result ≡ new_control words }
{
    Control {
        words: words,
        line: Line {
            int_raw: marks::TXFIFO_EMPTY,
            rx_mistimed: Source::None,
            idle_since: None,
            line_free_at: 0,
        },
        period: Clock::POWER_ON.apb_period,
        last: 0,
        wake: None,
        watched: false,
        powered_down_at: None,
        level: false,
    }
}

// What set-up fixes, and nothing in the queues.
pub fn new_core(offsets: [u32; 16], resets: [u32; 16]) -> Core
    ensures { result ≡ new_core offsets resets }
{
    let map = register_map(offsets, resets);
    let control = new_control(map.reset);
    let none = Cursor::new();
    Core {
        map,
        control,
        receiving: None,
        byte: 0,
        flight: none,
        tx: none,
        host: none,
        runs: none,
        rx: none,
    }
}

// A new core, and what set-up answers.
#[derive(Clone, Copy)]
pub struct NewParts {
    pub core: Core,
    pub reply: SetUp,
}

pub fn set_up(offsets: [u32; 16], resets: [u32; 16]) -> NewParts
    ensures { result ≡ new_parts offsets resets }
{
    let core = new_core(offsets, resets);
    let reply = replies::refusals::set_up_reply(offsets);
    NewParts { core, reply }
}
