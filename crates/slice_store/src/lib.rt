// The slice store: a stream mapped into a lent run of slice records, as the Rust's `PageList` hands out
// (`src/msf/page_list.rs`, `src/source.rs`), where `msf::map` takes two number stores.
#![tactic(auto)]

ghost use Rattle.std.specs.Prelude.{length};
ghost use Rattle.parse_buffer.specs.Bytes.{byte_at};
ghost use Rattle.slice_store.specs.Promises.{MapsInto};

use mapping::{Mapped, judge};
use paged::{Refusal, StreamNumber};
pub use slices::SourceSlice;
use slices::{Stretches, begin, extend};

/// Steps 1 to 8, then 10, as `msf::map`. After each stretch of pages the last slice stands in its place, as far as it
/// reaches.
pub fn map_into(
    file: &[u8],
    stream: StreamNumber,
    limit: Option<usize>,
    store: &mut [SourceSlice],
) -> Result<Mapped, Refusal>
    ensures { MapsInto (byte_at file.now) (length file.now) stream.0 limit
        store.old result store.new }
{
    let x = judge(file, stream, limit, store.len())?;
    let mut walk = begin();
    for s in Stretches::new(file, x) {
        walk = extend(x, s.next - s.pages, s, walk);
        store[walk.count - 1] = walk.slice;
    }
    Ok(Mapped {
        slices: walk.count,
        length: x.bytes,
    })
}
