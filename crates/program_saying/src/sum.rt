// The bytes lent and their sum: FNV-1a of 32 bits.
ghost use Rattle.std.specs.Prelude.{◌≡◌, length};
ghost use Rattle.program_saying.specs.Sum.{sum_from};
ghost use Rattle.program_saying.specs.declared.sum.TheConstants.{START};

use std::fmt;

// What the sum starts at.
pub const START: u32 = 2166136261;

// What it is multiplied by.
const PRIME: u32 = 16777619;

// The sum with some more bytes.
pub fn with_bytes(start: u32, bytes: &[u8]) -> u32
    ensures { result ≡ sum_from start bytes.now }
{
    bytes.iter().fold(
        start,
        |sum, byte| (sum ^ u32::from(*byte)).wrapping_mul(PRIME),
    )
}

// How many bytes are lent, and their sum.
#[derive(Clone, Copy, PartialEq, Eq, Debug)]
pub struct Memory {
    pub lent: usize,
    pub sum: u32,
}

impl Memory {
    pub fn of(bytes: &[u8]) -> Memory
        ensures lent { result.lent ≡ length bytes.now }
        ensures sum { result.sum ≡ sum_from START bytes.now }
    {
        Memory {
            lent: bytes.len(),
            sum: with_bytes(START, bytes),
        }
    }
}

// The sum in eight digits.
impl fmt::Display for Memory {
    fn fmt<W: fmt::Write>(&self, f: &mut fmt::Formatter<W>) -> fmt::Result {
        let Memory { lent, sum } = *self;
        write!(f, "{lent} {sum:08x}")
    }
}
