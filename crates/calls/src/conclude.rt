// How a write and a reset end: levels, interrupt and wake.
ghost use Rattle.std.specs.Prelude.{◌≡◌, length};
ghost use Rattle.queue.specs.Cursors.{Held};
ghost use Rattle.device.specs.Arms.{Ready};
ghost use Rattle.calls.specs.Concludes.{ConcludesAny};

use crate::levels;
use device::Core;

// Levels are raised, the interrupt is driven, and the next wake is armed.
pub fn conclude<'a>(core: Core, gone_at: &'a [u64; 129], run_at: &'a [u64; 64]) -> Core
    requires { Ready core gone_at.now × Held 64 core.runs × (length run_at.now ≡ 64) }
    ensures { ConcludesAny core gone_at.now run_at.now result }
{
    let leveled = levels::assert_and_drive(core);
    let armed = device::arm::arm(leveled, gone_at, run_at);
    armed
}
