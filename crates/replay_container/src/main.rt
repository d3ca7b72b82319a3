//! Replays a list of questions about writing containers: standard input has records, each a question and the digest of
//! the answers that `tests/differential` reckoned. Writes how many streams were asked about and how many records
//! differ.
//!
//! ask.rt: one question to the library. record.rt: a record.
#![tactic(auto)]

mod ask;
mod record;

use record::{HEADER, LARGEST_ROOM, LONGEST, MOST_RUNS, MOST_SIZES, Question, RUN, Stores};
use replay::{Input, Output, fill, replay};

fn main() {
    let mut runs = [0u8; MOST_RUNS * RUN];
    let mut stores = Stores {
        sizes: [0; MOST_SIZES],
        bytes: [0; LONGEST],
        store: [0; LARGEST_ROOM],
    };
    fill(&mut stores.bytes, ask::lent_byte);
    replay::<HEADER, Question, _, _>(&mut Input::default(), &mut Output, &mut runs, &mut stores);
}
