// How an answer crosses to Rust and C: as numbers.
//
// specs/Crossing.antt says which: the returned number, and those that are written to lent ones. This file: the returned
// number and the first lent one of each answer.
#![tactic(auto)]

ghost use Rattle.outcome.specs.Outcome.{raise};
ghost use Rattle.crossing.specs.Crossing.{Tells};

use outcome::Numbered;

/// Returned on success. No refusal has this number.
pub const ACCEPTED: u32 = 0;

/// Tells an answer by numbers: returns 0, and lends what was answered; or returns the refusal's number, and lends its
/// value.
#[tactic(auto, unfolding(crate::specs::Crossing::told, outcome::specs::Outcome::raise))]
pub fn tell<R: Numbered + Copy>(answer: Result<u64, R>, value: &mut u64) -> u32
    ensures { Tells (raise R.on_paper answer) (λ n. n) result value.new }
{
    match answer {
        Ok(n) => {
            *value = n;
            ACCEPTED
        }
        Err(why) => {
            *value = why.value();
            why.number()
        }
    }
}
