// Levels and the interrupt of a core, from its words and the numbers of its queues.
ghost use Rattle.std.specs.Prelude.{◌≡◌};
ghost use Rattle.calls.specs.Changes.{leveled_core};

use device::Core;
use line::levels;

pub fn assert_and_drive(mut core: Core) -> Core
    ensures { result ≡ leveled_core core }
{
    let mut control = core.control;
    let words = control.words;
    let before = control.line;
    let line = levels::assert_levels(before, words.conf1, core.rx.count, core.flight.count);
    control.level = levels::level(line, words.int_ena);
    control.line = line;
    core.control = control;
    core
}
