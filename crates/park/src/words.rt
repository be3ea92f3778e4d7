// The register map and the stored words.
ghost use Rattle.std.specs.Prelude.{◌≡◌, ◌+◌, ◌≤◌, length};
ghost use Rattle.form.specs.Cells.{field_bytes};
ghost use Rattle.form.specs.Form.{map_fields, word_fields};
ghost use Rattle.park.specs.Puts.{Puts};

use crate::put::put_numbers;
use model::{RegisterMap, Words};

// Sixteen offsets, and the reset words that are used.
pub(crate) fn put_map(out: &mut [u8], at: usize, map: RegisterMap) -> usize
    requires { (at + 108 ≤ length out.old) × (length map.offsets ≡ 16) }
    ensures { Puts 108 (field_bytes (map_fields map)) out.old at out.new result }
{
    let offsets = map.offsets;
    let resets = [
        map.reset.int_ena,
        map.reset.clkdiv,
        map.idle_status,
        map.reset.conf0,
        map.reset.conf1,
        map.reset.clk_conf,
        map.reset.idle_conf,
        map.reset.rs485_conf,
        map.reset.at_cmd_char,
        map.reset.mem_conf,
        map.mem_rx_status,
    ];
    let placed = put_numbers(out, at, 4, &offsets);
    put_numbers(out, placed, 4, &resets)
}

// In the order of set-up.
pub(crate) fn put_words(out: &mut [u8], at: usize, words: Words) -> usize
    requires { at + 36 ≤ length out.old }
    ensures { Puts 36 (field_bytes (word_fields words)) out.old at out.new result }
{
    let nine = [
        words.int_ena,
        words.clkdiv,
        words.conf0,
        words.conf1,
        words.clk_conf,
        words.idle_conf,
        words.rs485_conf,
        words.at_cmd_char,
        words.mem_conf,
    ];
    put_numbers(out, at, 4, &nine)
}
