// The reader of binary annotations, the Rust's `BinaryAnnotationsIter`: a struct that holds the lent bytes and a place
// in them. It calls `annotations::step_at`. `place_after` makes the one decision.
//
// Use `step_at` with plain bytes and a place, and the reader where one value must be passed around. `next_at` goes
// through the reader and has plain parameters. As an iterator the reader gives what comes before the end.
#![tactic(auto)]

ghost use Rattle.std.specs.Prelude.{◌≡◌};
ghost use Rattle.std.specs.Iterator.{at_most};
ghost use Rattle.annotations.specs.Promises.{step_in};
ghost use Rattle.reader.specs.Place.{place_after};
ghost use Rattle.reader.specs.Promises.{Starting, Moving, MovingAt, Giving, bytes_left};
ghost use Rattle.reader.specs.Statements.{SingleValued, StaysAtTheEnd, Calling};

use annotations::{Annotated, Step, step_at};
use numbers::PlacedRefusal;

/// Lent bytes, and the place that they are read to.
#[derive(Clone, Copy)]
pub struct BinaryAnnotationsIter<'a> {
    bytes: &'a [u8],
    at: usize,
}

/// A step's answer, and the reader's place after it.
#[derive(Clone, Copy, Debug, PartialEq, Eq)]
pub struct Moved {
    pub step: Step<Annotated>,
    pub place: usize,
}

impl<'a> BinaryAnnotationsIter<'a> {
    /// A reader at the start of these bytes.
    pub fn new(bytes: &'a [u8]) -> BinaryAnnotationsIter<'a>
        ensures { Starting bytes.entry result }
    {
        BinaryAnnotationsIter { bytes, at: 0 }
    }

    /// Takes one step and moves the reader to the place after it.
    pub fn next(&mut self) -> Step<Annotated>
        ensures { Moving self.old result self.new }
    {
        let step = step_at(self.bytes, self.at);
        self.at = place_after(step);
        step
    }
}

// After an item, an annotation or a refusal, fewer bytes are left.
impl<'a> Iterator for BinaryAnnotationsIter<'a> {
    type Item = Result<Annotated, PlacedRefusal>;

    ghost next_gives = { Giving };

    ghost remaining = { λ r. at_most (bytes_left r) };

    fn next(&mut self) -> Option<Result<Annotated, PlacedRefusal>> {
        match BinaryAnnotationsIter::next(self) {
            Step::Annotation(a) => Some(Ok(a)),
            Step::End(_) => None,
            Step::Refused(why) => Some(Err(why)),
        }
    }
}

/// One step of a reader that stands at `at`.
pub fn next_at(bytes: &[u8], at: usize) -> Moved
    ensures { MovingAt bytes.now at result }
{
    let mut r = BinaryAnnotationsIter { bytes, at };
    let step = r.next();
    Moved { step, place: r.at }
}

// The place after a step.
#[tactic(auto, unfolding(crate::specs::Place::place_after, annotations::specs::Promises::step_in))]
fn place_after(step: Step<Annotated>) -> usize
    ensures { result ≡ place_after (step_in step) }
{
    match step {
        Step::Annotation(a) => a.next,
        Step::End(place) => place,
        Step::Refused(why) => why.place,
    }
}

// Promises each statement of this crate, so that none can be dropped unnoticed.
#[tactic(auto, using(crate::proofs::Statements::single_valued, crate::proofs::Statements::stays_at_the_end, crate::proofs::Statements::calling))]
pub fn proved()
    ensures single_valued { SingleValued }
    ensures stays_at_the_end { StaysAtTheEnd }
    ensures calling { Calling }
{}
