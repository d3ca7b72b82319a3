// Asks the library one question and digests its answers: a container, written into stores of several sizes. Each answer
// begins with the number of its case.
use crate::record::Question;
use container_writer::write_container;
use replay::{Digest, in_rooms};

const WRITTEN: u64 = 41;

const REFUSED: u64 = 42;

const WORD: u64 = 0x100000000;

pub fn answer(q: Question, sizes: &[u32], bytes: &[u8], store: &mut [u8]) -> Digest {
    in_rooms(Digest::new(), store, q.rooms, untouched, |d, store| {
        match write_container(q.page_size, sizes, bytes, store) {
            Ok(n) => d.plain(WRITTEN).plain(n as u64),
            Err(why) => d.refused(REFUSED, why),
        }
    })
}

// A byte that is lent for a stream. None is 0, so that each shows in a page that is otherwise 0.
pub fn lent_byte(i: usize) -> u8 {
    (1 + i as u64 % WORD * 2654435761 / 0x10000 % 255) as u8
}

// A byte that is not 0, so that a zero that is not written shows.
fn untouched(i: usize) -> u8 {
    (1 + i % 251) as u8
}
