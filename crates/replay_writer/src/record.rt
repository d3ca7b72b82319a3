// A record: a header of 14 bytes and the numbers of a list of annotations, all little-endian
// (`tests/differential/README.md` has the format).
use crate::ask;
use replay::{Answers, Record, Rooms, half_at};

pub const HEADER: usize = 14;

// How many numbers a record may have: those of 512 annotations.
pub const LONGEST: usize = 1536;

// The numbers of an annotation.
const ENTRIES_EACH: usize = 3;

// The bytes of a number.
pub const WIDTH: usize = 8;

// The most bytes of a store: two more than so many annotations take. Each has at most nine.
pub const LARGEST_ROOM: usize = 4610;

// The sizes of the stores to write the list into.
#[derive(Clone, Copy)]
pub struct Question {
    length: usize,
    rooms: Rooms,
}

#[derive(Drop)]
pub struct Stores {
    pub list: [i64; LONGEST],
    pub store: [u8; LARGEST_ROOM],
}

impl Record<HEADER> for Question {
    type Stores = Stores;

    fn parse(h: &[u8; HEADER]) -> Option<Question> {
        let numbers = half_at(h, 0);
        let rooms = Rooms {
            low: half_at(h, 2),
            high: half_at(h, 4),
        };
        if LONGEST < numbers || !rooms.are_within(LARGEST_ROOM) {
            return None;
        }
        Some(Question {
            length: numbers * WIDTH,
            rooms,
        })
    }

    fn length(&self) -> usize {
        self.length
    }

    fn ask(&self, body: &mut [u8], stores: &mut Stores) -> Option<Answers> {
        let (numbers, _) = body.as_chunks::<WIDTH>();
        let list = stores.list.get_mut(..numbers.len())?;
        for (entry, bytes) in list.iter_mut().zip(numbers) {
            *entry = i64::from_le_bytes(*bytes);
        }
        let annotations = (list.len() / ENTRIES_EACH) as u64;
        let digest = ask::answer(self.rooms, list, &mut stores.store);
        Some(Answers::Asked(annotations, digest))
    }
}
