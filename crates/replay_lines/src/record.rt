// A record: a header of 14 bytes, its numbers little-endian (`tests/differential/README.md` has the format), and a line
// program.
use crate::ask;
use lines::ENTRIES_EACH;
use replay::{Answers, Record, Rooms, half_at};

pub const HEADER: usize = 14;

// How many bytes a record may have.
pub const LONGEST: usize = 4096;

// The most entries of a store: one more than the records of so many bytes take. Each has at least two bytes.
pub const LARGEST_ROOM: usize = LONGEST / 2 * ENTRIES_EACH + 1;

// The sizes of the stores to run the program with.
#[derive(Clone, Copy)]
pub struct Question {
    length: usize,
    rooms: Rooms,
}

impl Record<HEADER> for Question {
    type Stores = [i64; LARGEST_ROOM];

    fn parse(h: &[u8; HEADER]) -> Option<Question> {
        let q = Question {
            length: half_at(h, 0),
            rooms: Rooms {
                low: half_at(h, 2),
                high: half_at(h, 4),
            },
        };
        q.rooms.are_within(LARGEST_ROOM).then_some(q)
    }

    fn length(&self) -> usize {
        self.length
    }

    fn ask(&self, bytes: &mut [u8], store: &mut [i64; LARGEST_ROOM]) -> Option<Answers> {
        Some(Answers::Asked(1, ask::answer(self.rooms, bytes, store)))
    }
}
