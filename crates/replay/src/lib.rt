//! What the programs that replay recorded questions share. A list is a sequence of records; each has a header of fixed
//! size and a body, and the header ends with the digest of the wanted answers. `tests/differential/README.md` has the
//! formats.
//!
//! run.rt: the run over the records of a list. record.rt: what differs between the programs. tally.rt: what the records
//! came to. digest.rt: the digest of answers. stores.rt: asking with a store that is lent. number.rt: little-endian
//! numbers. input.rt, output.rt: standard input and output, and reading into a buffer.
#![tactic(auto)]

mod digest;
mod input;
mod number;
mod output;
mod record;
mod run;
mod stores;
mod tally;

pub use digest::{Digest, Entry};
pub use input::Input;
pub use number::{half_at, long_at, word_at};
pub use output::Output;
pub use record::{Answers, Record};
pub use run::replay;
pub use stores::{Rooms, fill, in_rooms, in_store};
