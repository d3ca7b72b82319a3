//! Replays a list of questions about binary annotations: standard input has records, each a question and the digest of
//! the Rust's answers. Writes how many strings were asked and how many records differ.
//!
//! ask.rt: one question to the library. record.rt: a record.
#![tactic(auto)]

mod ask;
mod record;

use record::{HEADER, LARGEST_ROOM, LONGEST, Question};
use replay::{Input, Output, replay};

fn main() {
    let mut bytes = [0u8; LONGEST];
    let mut store = [0i64; LARGEST_ROOM];
    replay::<HEADER, Question, _, _>(&mut Input::default(), &mut Output, &mut bytes, &mut store);
}
