// Whether a file is listed, in document 01's order: 11 for its length, the stream count's refusals, 7 if the directory
// does not hold all sizes, 11 for streams.
//
// refusal.rt: why a file is not listed at all. This file: judging that, for the crates of the listing.
#![tactic(auto)]

mod refusal;

ghost use Rattle.std.specs.Prelude.{length};
ghost use Rattle.parse_buffer.specs.Bytes.{byte_at};
ghost use Rattle.listing_whole.specs.Inner.{Judges};

use directory::reach;
use header::Header;
use paged::{Refusal, directory_word};
pub use refusal::{INPUT_LIMIT, ListRefusal, STREAM_LIMIT};

/// What a file that is listed has: a directory that holds its count and all sizes.
#[derive(Clone, Copy, Debug, PartialEq, Eq)]
pub struct Listable {
    pub header: Header,
    pub count: u32,
}

/// Judges whether a file is listed.
#[tactic(auto, using(crate::proofs::WholeLaws::size_same), unfolding(crate::specs::Whole::judging, crate::specs::Whole::listable, directory::specs::Directory::stream_count, outcome::specs::Outcome::and_then, outcome::specs::Outcome::and_next, outcome::specs::Outcome::require, outcome::specs::Outcome::raise))]
pub fn judge(file: &[u8]) -> Result<Listable, ListRefusal>
    ensures { Judges (byte_at file.now) (length file.now) result }
{
    if INPUT_LIMIT < file.len() {
        return Err(ListRefusal::OverLimit(INPUT_LIMIT as u32));
    }
    let h = reach(file)?;
    let count = directory_word(file, h.pagesize as usize, 0);
    if u64::from(h.directory) < 4 + 4 * u64::from(count) {
        return Err(ListRefusal::Container(Refusal::ShortData));
    }
    if STREAM_LIMIT < count {
        return Err(ListRefusal::OverLimit(STREAM_LIMIT));
    }
    Ok(Listable { header: h, count })
}
