// A record: a header of 26 bytes and runs of sizes, all little-endian (`tests/differential/README.md` has the format).
use crate::ask;
use replay::{Answers, Record, Rooms, half_at, word_at};

pub const HEADER: usize = 26;

// How many sizes a record may have.
pub const MOST_SIZES: usize = 16400;

// How many bytes of streams may be lent.
pub const LONGEST: usize = 131072;

// The most bytes of a store.
pub const LARGEST_ROOM: usize = 131072;

// The bytes of a run: how many sizes, and the size.
pub const RUN: usize = 6;

// How many runs a record may have.
pub const MOST_RUNS: usize = 1024;

// The page size, and the sizes of the stores to write the container into.
#[derive(Clone, Copy)]
pub struct Question {
    length: usize,
    // How many bytes of streams are lent.
    lent: usize,
    pub page_size: u32,
    pub rooms: Rooms,
}

#[derive(Drop)]
pub struct Stores {
    pub sizes: [u32; MOST_SIZES],
    // The bytes that are lent for streams.
    pub bytes: [u8; LONGEST],
    pub store: [u8; LARGEST_ROOM],
}

impl Record<HEADER> for Question {
    type Stores = Stores;

    fn parse(h: &[u8; HEADER]) -> Option<Question> {
        let runs = half_at(h, 0);
        let lent = word_at(h, 6) as usize;
        let rooms = Rooms {
            low: word_at(h, 10) as usize,
            high: word_at(h, 14) as usize,
        };
        if MOST_RUNS < runs || LONGEST < lent || !rooms.are_within(LARGEST_ROOM) {
            return None;
        }
        Some(Question {
            length: runs * RUN,
            lent,
            page_size: word_at(h, 2),
            rooms,
        })
    }

    fn length(&self) -> usize {
        self.length
    }

    fn ask(&self, runs: &mut [u8], stores: &mut Stores) -> Option<Answers> {
        let sizes = make_sizes(runs, &mut stores.sizes)?;
        let bytes = stores.bytes.get(..self.lent)?;
        let digest = ask::answer(*self, sizes, bytes, &mut stores.store);
        Some(Answers::Asked(sizes.len() as u64, digest))
    }
}

// Puts the sizes of all runs to the front of `sizes`, and returns them. None if there are too many.
fn make_sizes<'a>(runs: &[u8], sizes: &'a mut [u32]) -> Option<&'a [u32]> {
    let (runs, _) = runs.as_chunks::<RUN>();
    let mut made = 0usize;
    for run in runs {
        let end = made.checked_add(half_at(run, 0))?;
        sizes.get_mut(made..end)?.fill(word_at(run, 2));
        made = end;
    }
    sizes.get(..made)
}
