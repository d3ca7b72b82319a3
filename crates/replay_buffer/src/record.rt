// A record: a header of 18 bytes, its numbers little-endian (`tests/differential/README.md` has the format), and the
// bytes that are read.
use crate::ask;
use replay::{Answers, Record, half_at};

pub const HEADER: usize = 18;

// How many bytes a record may have.
pub const LONGEST: usize = 4096;

// The places to read at, and the lengths to take at each.
#[derive(Clone, Copy)]
pub struct Question {
    length: usize,
    pub first: usize,
    pub last: usize,
    pub fewest: usize,
    pub most: usize,
}

impl Record<HEADER> for Question {
    type Stores = ();

    fn parse(h: &[u8; HEADER]) -> Option<Question> {
        let q = Question {
            length: half_at(h, 0),
            first: half_at(h, 2),
            last: half_at(h, 4),
            fewest: half_at(h, 6),
            most: half_at(h, 8),
        };
        let within = q.first <= q.last && q.last <= q.length && q.fewest <= q.most;
        within.then_some(q)
    }

    fn length(&self) -> usize {
        self.length
    }

    fn ask(&self, bytes: &mut [u8], _: &mut ()) -> Option<Answers> {
        Some(Answers::Asked(1, ask::answer(*self, bytes)))
    }
}
