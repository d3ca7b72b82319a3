// The numbers that a record is written as.
ghost use Rattle.std.specs.Prelude.{◌≡◌, true, ◌+◌, ◌*◌, ◌≤◌, ◌<◌, length, nat_abs};
ghost use Rattle.store.specs.Putting.{Putting};
ghost use Rattle.annotation_records.specs.Ranges.{writable, carries};
ghost use Rattle.annotation_records.specs.Operands.{operand_of, shorts};
ghost use Rattle.annotation_records.specs.Inner.{first_operand, numbers_in, HaveForms, NumbersOf};

use crate::range::magnitude;
use crate::record::Record;
use shortest::{put_short, short_width};

/// An opcode and its operands, each below 2^29. Only 12 has the second one.
#[derive(Clone, Copy, Debug, PartialEq, Eq)]
pub struct Numbers {
    pub opcode: u32,
    pub first: u32,
    pub second: Option<u32>,
}

impl Numbers {
    /// How many bytes they take.
    #[tactic(auto, using(shortest::proofs::ShortLaws::short_most), unfolding(crate::specs::Operands::shorts))]
    pub fn width(self) -> usize
        ensures { result ≡ length (shorts (numbers_in self)) }
    {
        let operands = match self.second {
            Some(second) => short_width(self.first) + short_width(second),
            None => short_width(self.first),
        };
        short_width(self.opcode) + operands
    }

    /// Puts them at a place, and returns the place after them. The caller guarantees that each has a form, and the
    /// room.
    #[tactic(auto, unfolding(crate::specs::Operands::shorts))]
    pub fn put(self, out: &mut [u8], at: usize) -> usize
        requires have_forms { HaveForms self }
        requires room { at + length (shorts (numbers_in self)) ≤ length out.old }
        ensures { Putting (shorts (numbers_in self)) out.old at out.new result }
    {
        let operand = put_short(out, at, self.opcode);
        let after = put_short(out, operand, self.first);
        match self.second {
            Some(second) => put_short(out, after, second),
            None => after,
        }
    }
}

/// The numbers of a record. The caller guarantees that it can be written.
#[tactic(auto, unfolding(crate::specs::Ranges::carries, crate::specs::Ranges::writable))]
pub fn numbers_of(r: Record) -> Numbers
    requires { writable r ≡ true }
    ensures { NumbersOf r result }
{
    let opcode = magnitude(r.opcode);
    Numbers {
        opcode,
        first: first_operand(opcode, r.first, r.second),
        second: (opcode == 12).then_some(magnitude(r.second)),
    }
}

// 6 and 10 have a signed operand, and 11 a signed number above four bits.
#[tactic(auto, unfolding(crate::specs::Ranges::carries))]
fn first_operand(opcode: u32, first: i64, second: i64) -> u32
    requires { carries opcode first second ≡ true }
    ensures { result ≡ first_operand opcode first second }
{
    match opcode {
        6 | 10 => operand_of(first),
        11 => magnitude(first) + 16 * operand_of(second),
        _ => magnitude(first),
    }
}

// The operand whose signed reading is z. The caller guarantees that there is one.
#[tactic(auto, unfolding(crate::specs::Operands::operand_of))]
fn operand_of(z: i64) -> u32
    requires { nat_abs z ≤ 268435455 }
    ensures { result ≡ operand_of z }
{
    2 * magnitude(z) + u32::from(z < 0)
}
