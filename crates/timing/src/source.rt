// The source clock: its period in cycles, and the selections that the model has no frequency for. Carried over from
// inkemu's uart.rs and changed.
ghost use Rattle.std.specs.Prelude.{◌≡◌};
ghost use Rattle.model.specs.Timing.{source_period, unmodelled_source};

use crate::clock::Clock;
use model::Source;

// Source 1 is APB; every other uses the crystal.
pub fn source_period(clk_conf: u32, period: u64) -> u64
    ensures { result ≡ source_period clk_conf period }
{
    if registers::fields::sclk_sel(clk_conf) == 1 {
        period
    } else {
        Clock::XTAL_PERIOD
    }
}

// Sources 0 and 2 have no frequency here.
pub fn unmodelled_source(clk_conf: u32) -> Source
    ensures { result ≡ unmodelled_source clk_conf }
{
    let sel = registers::fields::sclk_sel(clk_conf);
    match sel {
        0 => Source::Sel0,
        1 => Source::None,
        2 => Source::Sel2,
        _ => Source::None,
    }
}
