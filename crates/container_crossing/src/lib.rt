// What crosses of the container's operations: each as a function that returns a number, and writes its other results to
// the numbers that it is lent. `trovespan` exports these.
#![tactic(auto)]

ghost use Rattle.std.specs.Prelude.{◌≡◌, length};
ghost use Rattle.parse_buffer.specs.Bytes.{byte_at};
ghost use Rattle.paged.specs.Refusal.{told};
ghost use Rattle.container_crossing.specs.Flags.{limit_of, stage_of};
ghost use Rattle.container_crossing.specs.Promises.{Opens, Counts, TellsMapping, Maps, Needs, Extracts};
ghost use Rattle.container_crossing.specs.Statements.{SingleValued};

use crossing::tell;
use msf::{Mapped, Refusal, StreamNumber};
use needed::Stage;

/// `value` is P, `used` is pages_used.
#[tactic(auto, unfolding(crossing::specs::Crossing::told, outcome::specs::Outcome::raise))]
pub fn open(file: &[u8], value: &mut u64, used: &mut u64) -> u32
    ensures { Opens (byte_at file.now) (length file.now) result value.new used.new }
{
    let opened = msf::open(file);
    *used = opened.map_or(0, |c| u64::from(c.used));
    tell(opened.map(|c| u64::from(c.pagesize)), value)
}

/// `value` is the number of streams.
#[tactic(auto, unfolding(crossing::specs::Crossing::told, outcome::specs::Outcome::raise))]
pub fn stream_count(file: &[u8], value: &mut u64) -> u32
    ensures { Counts (byte_at file.now) (length file.now) result value.new }
{
    let count = msf::stream_count(file);
    tell(count.map(|n| u64::from(n)), value)
}

/// `value` is the number of slices, `total` the number of their bytes. `limit` is used only if `limited`.
pub fn map(
    file: &[u8],
    stream: u32,
    limited: bool,
    limit: usize,
    offsets: &mut [u64],
    sizes: &mut [u64],
    value: &mut u64,
    total: &mut u64,
) -> u32
    ensures { Maps (byte_at file.now) (length file.now) stream (limit_of limited limit)
        offsets.old sizes.old result value.new total.new
        offsets.new sizes.new }
{
    let mapped = msf::map(
        file,
        StreamNumber(stream),
        limit_of(limited, limit),
        offsets,
        sizes,
    );
    tell_mapping(mapped, value, total)
}

/// The location list's slices, or the directory's if `directory`. `value` is their number, `total` that of their bytes.
pub fn needed_to_map(
    file: &[u8],
    directory: bool,
    offsets: &mut [u64],
    sizes: &mut [u64],
    value: &mut u64,
    total: &mut u64,
) -> u32
    ensures { Needs (byte_at file.now) (length file.now) (stage_of directory)
        offsets.old sizes.old result value.new total.new
        offsets.new sizes.new }
{
    let mapped = needed::needed_to_map(file, stage_of(directory), offsets, sizes);
    tell_mapping(mapped, value, total)
}

/// `value` is the number of bytes written. `limit` is used only if `limited`.
#[tactic(auto, unfolding(crossing::specs::Crossing::told, outcome::specs::Outcome::raise))]
pub fn extract(
    file: &[u8],
    stream: u32,
    limited: bool,
    limit: usize,
    out: &mut [u8],
    value: &mut u64,
) -> u32
    ensures { Extracts (byte_at file.now) (length file.now) stream (limit_of limited limit)
        out.old result value.new out.new }
{
    let extracted = msf::extract(file, StreamNumber(stream), limit_of(limited, limit), out);
    tell(extracted.map(|n| n as u64), value)
}

// What crosses of a mapping: the number of slices, and that of their bytes.
#[tactic(auto, unfolding(crossing::specs::Crossing::told, outcome::specs::Outcome::raise))]
fn tell_mapping(mapped: Result<Mapped, Refusal>, value: &mut u64, total: &mut u64) -> u32
    ensures { TellsMapping (told mapped) result value.new total.new }
{
    *total = mapped.map_or(0, |m| m.length as u64);
    tell(mapped.map(|m| m.slices as u64), value)
}

// The limit, if there is one.
fn limit_of(limited: bool, limit: usize) -> Option<usize>
    ensures { result ≡ limit_of limited limit }
{
    limited.then_some(limit)
}

// The stage of a flag.
fn stage_of(directory: bool) -> Stage
    ensures { result ≡ stage_of directory }
{
    if directory {
        Stage::Directory
    } else {
        Stage::LocationList
    }
}

/// Promises the statement of this crate, so that it cannot be dropped unnoticed.
#[tactic(auto, using(crate::proofs::Statements::single_valued))]
pub fn proved()
    ensures { SingleValued }
{}
