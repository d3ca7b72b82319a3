//! Replays a list of questions about writing annotations: standard input has records, each a question and the digest of
//! the answers that `tests/differential` reckoned. Writes how many annotations were asked about and how many records
//! differ.
//!
//! ask.rt: one question to the library. record.rt: a record.
#![tactic(auto)]

mod ask;
mod record;

use record::{HEADER, LARGEST_ROOM, LONGEST, Question, Stores, WIDTH};
use replay::{Input, Output, replay};

fn main() {
    let mut body = [0u8; LONGEST * WIDTH];
    let mut stores = Stores {
        list: [0; LONGEST],
        store: [0; LARGEST_ROOM],
    };
    replay::<HEADER, Question, _, _>(&mut Input::default(), &mut Output, &mut body, &mut stores);
}
