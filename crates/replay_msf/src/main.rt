//! Replays a list of questions about containers and compares: standard input has base files, and questions about edited
//! copies of them with the digests of what the Rust answers. Writes how many files were asked about and how many
//! records differ.
//!
//! record.rt: a record. files.rt: the files that records make. The crate `replay_questions` asks the library.
#![tactic(auto)]

mod files;
mod record;

use record::{HEADER, LONGEST_BODY, LONGEST_FILE, MOST_BYTES, Question, Stores};
use replay::{Input, Output, replay};

fn main() {
    let mut body = [0u8; LONGEST_BODY];
    let mut stores = Stores {
        base: [0; LONGEST_FILE],
        file: [0; LONGEST_FILE],
        bytes: [0; MOST_BYTES],
    };
    replay::<HEADER, Question, _, _>(&mut Input::default(), &mut Output, &mut body, &mut stores);
}
