// Asks the library one question and digests its answers: a line program, run with stores of several sizes. Each answer
// begins with the number of its case.
use lines::Refusal;
use replay::{Digest, Rooms, in_rooms};

const RAN: u64 = 51;

const REFUSED: u64 = 52;

const REFUSED_NOWHERE: u64 = 53;

pub fn answer(rooms: Rooms, bytes: &[u8], store: &mut [i64]) -> Digest {
    in_rooms(Digest::new(), store, rooms, untouched, |d, store| {
        match lines::run_lines(bytes, store) {
            Ok(n) => d.plain(RAN).plain(n as u64),
            Err(why) => refused(d, why),
        }
    })
}

fn refused(d: Digest, why: Refusal) -> Digest {
    match why.place() {
        Some(place) => d.refused(REFUSED, why).plain(place as u64),
        None => d.refused(REFUSED_NOWHERE, why),
    }
}

// A number that no record has.
fn untouched(i: usize) -> i64 {
    -7000000000000000000 - (i % 65536) as i64
}
