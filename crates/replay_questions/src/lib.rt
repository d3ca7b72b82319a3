//! One question about a container to the library, and the digest of what it answers: opening, counting, mapping,
//! extracting, listing, and the parts of the file that mapping reads, those that are asked for. Each answer begins with
//! the number of its case. After a mapping and after such a part come both stores, after an extraction and after a part
//! of a listing the output, so that an entry that was written and should not have been shows.
//!
//! container.rt: opening, counting and extracting. mapped.rt: what is answered in slices. lines.rt: the listing. This
//! file: the question.
#![tactic(auto)]

mod container;
mod lines;
mod mapped;

use container::{count, extract, open};
use lines::list;
use listing::Place;
use mapped::{map, need};
use msf::StreamNumber;
use needed::Stage;
use replay::Digest;

/// What a record asks: which operations, of which stream, up to which limit, with stores of which lengths.
#[derive(Clone, Copy)]
pub struct Question {
    pub open: bool,
    pub count: bool,
    pub map: bool,
    pub extract: bool,
    pub list: bool,
    /// The parts that mapping reads.
    pub location_list: bool,
    pub directory: bool,
    pub stream: StreamNumber,
    pub limit: Option<usize>,
    pub offsets: usize,
    pub sizes: usize,
    /// Of the output, and of the store for lines.
    pub bytes: usize,
    /// Where the listing begins.
    pub from: Place,
}

/// The digest goes on from `d`. `bytes` is at least as long as the question says.
pub fn answer(d: Digest, q: Question, file: &[u8], bytes: &mut [u8]) -> Digest {
    let Some(bytes) = bytes.get_mut(..q.bytes) else {
        return d;
    };
    let mut digest = d;
    if q.open {
        digest = open(digest, file);
    }
    if q.count {
        digest = count(digest, file);
    }
    if q.map {
        digest = map(digest, q, file);
    }
    if q.extract {
        digest = extract(digest, q, file, bytes);
    }
    if q.list {
        digest = list(digest, file, q.from, bytes);
    }
    if q.location_list {
        digest = need(digest, q, file, Stage::LocationList);
    }
    if q.directory {
        digest = need(digest, q, file, Stage::Directory);
    }
    digest
}

// What byte i of a store begins as.
fn untouched(i: usize) -> u8 {
    (i % 251) as u8
}
