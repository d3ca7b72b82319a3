// The listing asked for again and again, from a place on, each time into the same store, and the digest of all answers.
// The store is filled anew before each call and mixed in whole after it, so that a byte that was written and should not
// have been shows.
use crate::untouched;
use listing::{Part, Place};
use replay::{Digest, fill, in_store};

const LISTED: u64 = 19;

const LIST_REFUSED: u64 = 20;

// Up to the end, to a refusal, or to a part of no line. A proved loop must end, so the turns are counted, up to a
// number that no listing reaches.
pub(crate) fn list(d: Digest, file: &[u8], from: Place, store: &mut [u8]) -> Digest {
    let mut digest = d;
    let mut place = from;
    for _ in 0..u64::MAX {
        fill(store, untouched);
        match listing::list(file, place, store) {
            Ok(part) => {
                digest = with_part(digest, part).all(store);
                if part.bytes == 0 || part.next == Place::End {
                    break;
                }
                place = part.next;
            }
            Err(why) => {
                digest = digest.refused(LIST_REFUSED, why).all(store);
                digest = in_store(digest, store, untouched, |d, store| {
                    d.plain(listing::list_refusal(why, store) as u64)
                });
                break;
            }
        }
    }
    digest
}

fn with_part(d: Digest, part: Part) -> Digest {
    let answered = d.plain(LISTED).plain(part.bytes as u64);
    match part.next {
        Place::Head => answered.plain(0).plain(0),
        Place::Stream(stream) => answered.plain(1).plain(u64::from(stream.0)),
        Place::End => answered.plain(2).plain(0),
    }
}
