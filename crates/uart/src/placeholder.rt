// The UART that a program holds before the first set-up, so that it has one at every time. No call reaches it.
ghost use Rattle.uart.specs.StandIn.{StandsIn};

use crate::Uart;

// Its sixteen offsets are the first sixteen words, and its reset words are all 0.
pub fn stand_in() -> Uart
    ensures { StandsIn result }
{
    let offsets = [0, 4, 8, 12, 16, 20, 24, 28, 32, 36, 40, 44, 48, 52, 56, 60];
    let new = Uart::new(offsets, [0; 16]);
    new.uart
}
