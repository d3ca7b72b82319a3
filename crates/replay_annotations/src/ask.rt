// Asks the library one question and digests its answers: the number at a place, the steps from there in both forms, and
// all of the bytes decoded into stores of several sizes. Each answer begins with the number of its case.
use crate::record::Question;
use annotations::{Annotated, Step};
use decode::Refusal;
use numbers::PlacedRefusal;
use reader::Moved;
use replay::{Digest, in_rooms};

const NUMBER: u64 = 1;

const NUMBER_REFUSED: u64 = 2;

const ANNOTATION: u64 = 3;

const END: u64 = 4;

const STEP_REFUSED: u64 = 5;

const ALL_DECODED: u64 = 6;

const ALL_REFUSED: u64 = 7;

const NO_ROOM: u64 = 8;

// No recorded answer begins with it.
const READER_DIFFERS: u64 = 9;

pub fn answer(d: Digest, q: Question, bytes: &[u8], store: &mut [i64]) -> Digest {
    let numbered = number(d, bytes, q.at);
    let stepped = steps(numbered, bytes, q.at);
    in_rooms(stepped, store, q.rooms, untouched, |d, store| {
        decoded(d, bytes, store)
    })
}

// The number at a place.
fn number(d: Digest, bytes: &[u8], at: usize) -> Digest {
    match numbers::uncompress_next(bytes, at) {
        Ok(n) => {
            let read = d
                .plain(NUMBER)
                .plain(u64::from(n.value))
                .plain(n.taken as u64);
            read.plain(u64::from(n.shortest)).plain(n.next as u64)
        }
        Err(why) => refused(d, NUMBER_REFUSED, why),
    }
}

// All steps from a place, by `step_at` and by the reader. If the two differ, a word that no answer has makes the record
// differ.
fn steps(d: Digest, bytes: &[u8], at: usize) -> Digest {
    let walked = walk(d, bytes.len(), at, |at| {
        let step = annotations::step_at(bytes, at);
        let place = match step {
            Step::Annotation(a) => a.next,
            Step::End(place) => place,
            Step::Refused(why) => why.place,
        };
        Moved { step, place }
    });
    let read = walk(d, bytes.len(), at, |at| reader::next_at(bytes, at));
    if walked == read {
        walked
    } else {
        walked.plain(READER_DIFFERS)
    }
}

// The steps up to the end, also those after a refusal. Each takes at least one byte, so one turn more than the length
// reaches the end.
fn walk<F: Fn(usize) -> Moved>(d: Digest, length: usize, from: usize, next: F) -> Digest
    requires { F.IsAlwaysCallable next }
{
    let mut digest = d;
    let mut at = from;
    for _ in 0..=length {
        let moved = next(at);
        digest = with_step(digest, moved.step);
        at = moved.place;
        if let Step::End(_) = moved.step {
            break;
        }
    }
    digest
}

// A step's answer.
fn with_step(d: Digest, step: Step<Annotated>) -> Digest {
    match step {
        Step::Annotation(a) => {
            let annotation = a.annotation;
            let t = annotation.triple();
            let kind = d.plain(ANNOTATION).plain(0).plain(u64::from(t.opcode));
            let triple = kind.signed(t.first).signed(t.second);
            let whole = triple.plain(u64::from(a.shortest)).plain(a.next as u64);
            whole.plain(u64::from(annotation.emits_line_info()))
        }
        Step::End(place) => d.plain(END).plain(place as u64),
        Step::Refused(why) => refused(d, STEP_REFUSED, why),
    }
}

fn decoded(d: Digest, bytes: &[u8], store: &mut [i64]) -> Digest {
    match decode::decode_all(bytes, store) {
        Ok(n) => d.plain(ALL_DECODED).plain(n as u64),
        Err(Refusal::Annotation(why)) => refused(d, ALL_REFUSED, why),
        Err(why) => d.refused(NO_ROOM, why),
    }
}

// A number that no annotation has.
fn untouched(i: usize) -> i64 {
    -1000 - (i % 65536) as i64
}

fn refused(d: Digest, case: u64, why: PlacedRefusal) -> Digest {
    d.refused(case, why.refusal).plain(why.place as u64)
}
