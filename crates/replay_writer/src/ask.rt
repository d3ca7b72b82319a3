// Asks the library one question and digests its answers: a list of annotations, written into stores of several sizes.
// Each answer begins with the number of its case.
use annotation_writer::write_annotations;
use replay::{Digest, Rooms, in_rooms};

const WRITTEN: u64 = 31;

const REFUSED: u64 = 32;

pub fn answer(rooms: Rooms, list: &[i64], store: &mut [u8]) -> Digest {
    in_rooms(Digest::new(), store, rooms, untouched, |d, store| {
        match write_annotations(list, store) {
            Ok(n) => d.plain(WRITTEN).plain(n as u64),
            Err(why) => d.refused(REFUSED, why),
        }
    })
}

// A byte that begins no number.
fn untouched(i: usize) -> u8 {
    (0xe0 + i % 31) as u8
}
