// Asks the library one question and digests its answers: the number at each place, and parts of each length taken
// there. Each answer begins with the number of its case.
use crate::record::Question;
use parse_buffer::ShortData;
use replay::Digest;

const WORD: u64 = 21;

const WORD_REFUSED: u64 = 22;

const TAKEN: u64 = 23;

const NOT_THERE: u64 = 24;

// Document 01's number for a read past the bytes.
const SHORT_DATA: u64 = 7;

pub fn answer(q: Question, bytes: &[u8]) -> Digest {
    let mut digest = Digest::new();
    for at in q.first..=q.last {
        digest = number(digest, bytes, at);
        for n in q.fewest..=q.most {
            digest = part(digest, bytes, at, n);
        }
    }
    digest
}

fn number(d: Digest, bytes: &[u8], at: usize) -> Digest {
    match parse_buffer::parse_u32(bytes, at) {
        Ok(w) => {
            let read = d.plain(WORD).plain(u64::from(w.value));
            read.plain(w.next as u64)
        }
        Err(ShortData) => d.plain(WORD_REFUSED).plain(SHORT_DATA),
    }
}

// The Rust refuses if the bytes are not there. Ours must return an empty part then, and the length shows it. No program
// can see where a part begins: `take` promises that it begins at `at`, and the Rust's place is compared with that.
fn part(d: Digest, bytes: &[u8], at: usize, n: usize) -> Digest {
    let part = parse_buffer::take(bytes, at, n);
    let length = part.len() as u64;
    if parse_buffer::can_take(bytes, at, n) {
        return d.plain(TAKEN).plain(at as u64).plain(length).all(part);
    }
    d.plain(NOT_THERE).plain(length)
}
