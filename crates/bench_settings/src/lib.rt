// Document 01's bench settings, for the programs that test and measure: offsets and reset words in the order of set-up, and the
// offsets of some places.
#![tactic(auto)]

pub const FIFO: u32 = 0;

pub const INT_ST: u32 = 8;

pub const INT_ENA: u32 = 12;

pub const INT_CLR: u32 = 16;

pub const STATUS: u32 = 24;

pub const CONF1: u32 = 36;

// Four times the place, from 0.
pub const OFFSETS: [u32; 16] = [0, 4, 8, 12, 16, 20, 24, 28, 32, 36, 40, 44, 48, 52, 56, 60];

pub const RESETS: [u32; 16] = [
    0, 0, 0, 0, 0, 0x0080000A, 0, 0, 0x1C, 0xC060, 0x02300000, 0, 0, 0, 0x000A0012, 0,
];
