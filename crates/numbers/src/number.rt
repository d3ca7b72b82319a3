// A compressed number (`CVUncompressData`): a value of at most 0x1fffffff in one, two or four bytes. Lengths are
// checked. The Rust's `uncompress_next`.
ghost use Rattle.numbers.specs.Promises.{Uncompressing};

use crate::form::{is_shortest, value_at, why_at, width_at};
use crate::refusal::PlacedRefusal;

/// A number that was read, the place after it, how many bytes it took, and whether no form of it is shorter.
#[derive(Clone, Copy, Debug, PartialEq, Eq)]
pub struct Number {
    pub value: u32,
    pub next: usize,
    pub taken: usize,
    pub shortest: bool,
}

/// Reads the number at `at`. Refuses with 7 or 8.
#[tactic(auto, unfolding(outcome::specs::Outcome::raise))]
#[inline(always)]
pub fn uncompress_next(bytes: &[u8], at: usize) -> Result<Number, PlacedRefusal>
    ensures { Uncompressing bytes.now at result }
{
    let Some(width) = width_at(bytes, at) else {
        return Err(why_at(bytes, at));
    };
    let value = value_at(bytes, at, width);
    Ok(Number {
        value,
        next: at + width,
        taken: width,
        shortest: is_shortest(value, width),
    })
}
