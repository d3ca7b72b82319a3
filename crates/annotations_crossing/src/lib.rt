// What crosses of the operations on binary annotations: each as a function that returns a number, and writes its other
// results to the numbers that it is lent. `trovespan` exports these.
#![tactic(auto)]

ghost use Rattle.annotations_crossing.specs.Promises.{Numbers, Steps, Decodes, Runs};
ghost use Rattle.annotations_crossing.specs.Statements.{SingleValued};

use annotations::{Step, operands_at};
use crossing::tell;
use decode::decode_all;
use numbers::uncompress_next;
use triples::triple_of;

/// `value` is the number, `taken` how many bytes it took, `shortest` 1 if no form of it is shorter, else 0. `next` is
/// the place after it or after its refusal.
#[tactic(auto, unfolding(crossing::specs::Crossing::told, outcome::specs::Outcome::raise))]
pub fn number(
    bytes: &[u8],
    at: usize,
    value: &mut u64,
    taken: &mut u64,
    shortest: &mut u64,
    next: &mut u64,
) -> u32
    ensures { Numbers bytes.now at result value.new taken.new shortest.new
        next.new }
{
    let number = uncompress_next(bytes, at);
    *taken = number.map_or(0, |n| n.taken as u64);
    *shortest = number.map_or(0, |n| u64::from(n.shortest));
    *next = number.map_or_else(|why| why.place as u64, |n| n.next as u64);
    let told = number.map(|n| u64::from(n.value));
    tell(told.map_err(|why| why.refusal), value)
}

/// `value` is the annotation's opcode, 1 to 13, or 0 at the end. `first` and `second` are its operands. `shortest` is 1
/// if all its numbers were shortest, else 0. `next` is the place after the annotation, the end or the refusal.
#[tactic(auto, unfolding(crate::specs::Step::opcode_of, crate::specs::Step::first_of, crate::specs::Step::second_of, crate::specs::Step::shortest_of, crate::specs::Step::next_of, annotations::specs::Inner::read_in, crossing::specs::Crossing::told, outcome::specs::Outcome::raise))]
pub fn step(
    bytes: &[u8],
    at: usize,
    value: &mut u64,
    first: &mut i64,
    second: &mut i64,
    shortest: &mut u64,
    next: &mut u64,
) -> u32
    ensures { Steps bytes.now at result value.new first.new second.new
        shortest.new next.new }
{
    *first = 0;
    *second = 0;
    *shortest = 0;
    let told = match operands_at(bytes, at) {
        Step::Annotation(a) => {
            let t = triple_of(a.opcode, a.first, a.second);
            *first = t.first;
            *second = t.second;
            *shortest = u64::from(a.shortest);
            *next = a.next as u64;
            Ok(u64::from(t.opcode))
        }
        Step::End(place) => {
            *next = place as u64;
            Ok(0)
        }
        Step::Refused(why) => {
            *next = why.place as u64;
            Err(why.refusal)
        }
    };
    tell(told, value)
}

/// `value` is the number of annotations, `place` the place after a refusal. Refusal 10 has no place.
#[tactic(auto, unfolding(crossing::specs::Crossing::told, outcome::specs::Outcome::raise))]
pub fn decode(bytes: &[u8], store: &mut [i64], value: &mut u64, place: &mut u64) -> u32
    ensures { Decodes bytes.now store.old result value.new place.new store.new }
{
    let decoded = decode_all(bytes, store);
    *place = match decoded {
        Ok(_) => 0,
        Err(why) => why.place().unwrap_or(0) as u64,
    };
    tell(decoded.map(|n| n as u64), value)
}

/// `value` is the number of line records, `place` the place after a refusal of the decoder. 25 and 10 have no place.
#[tactic(auto, unfolding(crossing::specs::Crossing::told, outcome::specs::Outcome::and_then, outcome::specs::Outcome::raise))]
pub fn run_lines(bytes: &[u8], store: &mut [i64], value: &mut u64, place: &mut u64) -> u32
    ensures { Runs bytes.now store.old result value.new place.new store.new }
{
    let ran = lines::run_lines(bytes, store);
    *place = match ran {
        Ok(_) => 0,
        Err(why) => why.place().unwrap_or(0) as u64,
    };
    tell(ran.map(|n| n as u64), value)
}

/// Promises the statement of this crate, so that it cannot be dropped unnoticed.
#[tactic(auto, using(crate::proofs::Statements::single_valued))]
pub fn proved()
    ensures { SingleValued }
{}
