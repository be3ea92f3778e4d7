// The APB clock by its period in cycles. Carried over from inkemu's clock.rs and changed: the CPU's clock is left out.
ghost use Rattle.std.specs.Prelude.{◌≡◌};
ghost use Rattle.model.specs.Calls.{period_of};
ghost use Rattle.model.specs.SetUp.{power_on};

#[derive(Clone, Copy, PartialEq, Eq, Debug)]
pub struct Clock {
    // Cycles in one APB clock cycle; at least 1.
    pub apb_period: u64,
}

impl Clock {
    // Cycles in one cycle of the crystal.
    pub const XTAL_PERIOD: u64 = 4;

    // The clock after set-up: the crystal divided by 2.
    pub const POWER_ON: Clock = Clock { apb_period: 8 };

    // The period of POWER_ON, in cycles.
    pub fn power_on_period() -> u64
        ensures { result ≡ power_on }
    {
        Clock::POWER_ON.apb_period
    }

    // A period of 0 counts as 1, the shortest there is.
    pub fn new(apb_period: u64) -> Clock
        ensures { result.apb_period ≡ period_of apb_period }
    {
        Clock {
            apb_period: apb_period.max(1),
        }
    }
}
