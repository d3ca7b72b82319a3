// Which records can be written: the range of each number, by the opcode.
ghost use Rattle.std.specs.Prelude.{◌≡◌, ◌≤◌, nat_abs};
ghost use Rattle.annotation_records.specs.Ranges.{within, carries, first_range, second_range, writable};

use crate::record::Record;

// The largest number that has a form, and the largest signed ones: alone, and above the four bits of 11.
const LARGEST: i64 = 536870911;

const LARGEST_SIGNED: i64 = 268435455;

const LARGEST_ABOVE: i64 = 16777215;

// The largest number of four bits.
const LARGEST_NIBBLE: i64 = 15;

// From one number to another, both included.
#[derive(Clone, Copy)]
pub(crate) struct Range {
    pub low: i64,
    pub high: i64,
}

impl Range {
    fn contains(self, z: i64) -> bool
        ensures { result ≡ within self z }
    {
        self.low <= z && z <= self.high
    }
}

/// Whether a record has an opcode of 1 to 13, and numbers that it can carry.
#[tactic(auto, unfolding(crate::specs::Ranges::writable))]
pub fn is_writable(r: Record) -> bool
    ensures { result ≡ writable r }
{
    (1..=13).contains(&r.opcode) && can_carry(magnitude(r.opcode), r.first, r.second)
}

// Whether an opcode can carry these numbers. Both ranges are picked before a number is looked at: which opcode comes
// next is nothing that a processor can foresee, so a jump by it costs more than the tests.
#[tactic(auto, unfolding(crate::specs::Ranges::carries))]
fn can_carry(opcode: u32, first: i64, second: i64) -> bool
    ensures { result ≡ carries opcode first second }
{
    first_range(opcode).contains(first) && second_range(opcode).contains(second)
}

// What the first number of an opcode can be. 6 and 10 are signed.
fn first_range(opcode: u32) -> Range
    ensures { result ≡ first_range opcode }
{
    if opcode == 6 || opcode == 10 {
        Range {
            low: -LARGEST_SIGNED,
            high: LARGEST_SIGNED,
        }
    } else if opcode == 11 {
        Range {
            low: 0,
            high: LARGEST_NIBBLE,
        }
    } else {
        Range {
            low: 0,
            high: LARGEST,
        }
    }
}

// What the second number can be. Only 11 and 12 have one; that of any other is 0.
fn second_range(opcode: u32) -> Range
    ensures { result ≡ second_range opcode }
{
    match opcode {
        11 => Range {
            low: -LARGEST_ABOVE,
            high: LARGEST_ABOVE,
        },
        12 => Range {
            low: 0,
            high: LARGEST,
        },
        _ => Range { low: 0, high: 0 },
    }
}

// The number without its sign. The caller guarantees that no operand is larger.
pub(crate) fn magnitude(z: i64) -> u32
    requires { nat_abs z ≤ 536870911 }
    ensures { result ≡ nat_abs z }
{
    z.unsigned_abs() as u32
}
