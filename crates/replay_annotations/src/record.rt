// A record: a header of 20 bytes, its numbers little-endian (`tests/differential/README.md` has the format), and a
// string of annotations.
use crate::ask;
use decode::ENTRIES_EACH;
use replay::{Answers, Digest, Record, Rooms, half_at};

pub const HEADER: usize = 20;

// How many bytes a record may have.
pub const LONGEST: usize = 4096;

// The most entries of a store: one more than the annotations of so many bytes take. Each has at least two bytes.
pub const LARGEST_ROOM: usize = LONGEST / 2 * ENTRIES_EACH + 1;

// The place of a number, and the sizes of the stores to decode into.
#[derive(Clone, Copy)]
pub struct Question {
    length: usize,
    pub at: usize,
    pub rooms: Rooms,
    // Asked for every value of the last byte.
    sweep: bool,
}

impl Record<HEADER> for Question {
    type Stores = [i64; LARGEST_ROOM];

    fn parse(h: &[u8; HEADER]) -> Option<Question> {
        let q = Question {
            length: half_at(h, 0),
            at: half_at(h, 2),
            rooms: Rooms {
                low: half_at(h, 4),
                high: half_at(h, 6),
            },
            sweep: h[8] == 1,
        };
        let well_formed = h[8] < 2 && h[9] == 0 && h[10] == 0 && h[11] == 0;
        let within = q.rooms.are_within(LARGEST_ROOM) && !(q.sweep && q.length == 0);
        (well_formed && within).then_some(q)
    }

    fn length(&self) -> usize {
        self.length
    }

    fn ask(&self, bytes: &mut [u8], store: &mut [i64; LARGEST_ROOM]) -> Option<Answers> {
        if !self.sweep {
            let digest = ask::answer(Digest::new(), *self, bytes, store);
            return Some(Answers::Asked(1, digest));
        }
        let mut digest = Digest::new();
        for value in 0..=u8::MAX {
            *bytes.last_mut()? = value;
            digest = ask::answer(digest, *self, bytes, store);
        }
        Some(Answers::Asked(256, digest))
    }
}
