// Numbers that were read as ones of 32 bits.
ghost use Rattle.std.specs.Prelude.{◌≡◌, map, ◌≤◌, take, drop};
ghost use Rattle.trace.specs.Low.{low_of};

use std::array;

pub fn low(number: u64) -> u32
    ensures { result ≡ low_of number }
{
    (number % 4294967296) as u32
}

// Sixteen of them, from a place on: the offsets of a set-up, or its reset words.
pub fn sixteen(numbers: [u64; 32], from: usize) -> [u32; 16]
    requires { from ≤ 16 }
    ensures { result ≡ take 16 (map low_of (drop from numbers)) }
{
    array::from_fn(|i| low(numbers[from + i]))
}
