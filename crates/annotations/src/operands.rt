// An opcode and its operands as they stand in the bytes, before they are made into anything: `step_at` makes a variant
// of them, the boundary three numbers. Whether each of them has its shortest form is passed on.
//
// This is the one place that reads annotations. A caller that wants less of them (where they end, say) gets its own
// copy, of which the compiler leaves out what it does not use.
ghost use Rattle.std.specs.Prelude.{◌≡◌};
ghost use Rattle.annotations.specs.Step.{operands};
ghost use Rattle.annotations.specs.Inner.{HasOperands, Reads, Reading};

use crate::step::Step;
use numbers::{Number, PlacedRefusal, Refusal, uncompress_next};

/// An opcode of 1 to 13, its operands as they were read, whether all these numbers were shortest, and the place after
/// them. Only 12 has the second operand.
#[derive(Clone, Copy, Debug, PartialEq, Eq)]
pub struct Operands {
    pub opcode: u32,
    pub first: u32,
    pub second: u32,
    pub shortest: bool,
    pub next: usize,
}

/// Reads the opcode at `at` and its operands. Refuses with 7, 8 or 9.
#[tactic(auto, unfolding(crate::specs::Inner::read_in, crate::specs::Inner::found_in))]
#[inline(always)]
pub fn operands_at(bytes: &[u8], at: usize) -> Step<Operands>
    ensures { Reading bytes.now at result }
{
    match read_at(bytes, at) {
        Ok(Some(a)) => Step::Annotation(a),
        Ok(None) => Step::End(bytes.len()),
        Err(why) => Step::Refused(why),
    }
}

// The same: no operands are the end.
#[tactic(auto, unfolding(crate::specs::Inner::found_in, crate::specs::Inner::operands_in, crate::specs::Step::step_at, outcome::specs::Outcome::and_then, outcome::specs::Outcome::and_next, outcome::specs::Outcome::require, outcome::specs::Outcome::raise))]
#[inline(always)]
fn read_at(bytes: &[u8], at: usize) -> Result<Option<Operands>, PlacedRefusal>
    ensures { Reads bytes.now at result }
{
    if bytes.len() <= at {
        return Ok(None);
    }
    let code = uncompress_next(bytes, at)?;
    // Opcode 0 ends the program, whatever follows: the Rust drops its buffer here.
    if code.value == 0 {
        return Ok(None);
    }
    if 13 < code.value {
        return Err(PlacedRefusal {
            refusal: Refusal::UnknownBinaryAnnotation(code.value),
            place: code.next,
        });
    }
    Ok(Some(operands_of(bytes, code)?))
}

// Reads the operands that follow an opcode: 12 has two, the others one.
#[tactic(auto, unfolding(crate::specs::Inner::operands_in, crate::specs::Step::operands, outcome::specs::Outcome::and_then, outcome::specs::Outcome::raise))]
#[inline(always)]
fn operands_of(bytes: &[u8], code: Number) -> Result<Operands, PlacedRefusal>
    ensures { HasOperands bytes.now code result }
{
    let first = uncompress_next(bytes, code.next)?;
    let one = code.shortest & first.shortest;
    if code.value != 12 {
        return Ok(Operands {
            opcode: code.value,
            first: first.value,
            second: 0,
            shortest: one,
            next: first.next,
        });
    }
    let second = uncompress_next(bytes, first.next)?;
    Ok(Operands {
        opcode: code.value,
        first: first.value,
        second: second.value,
        shortest: one & second.shortest,
        next: second.next,
    })
}
