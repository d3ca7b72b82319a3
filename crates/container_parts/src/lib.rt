// The data pages of one part of a container (a stream, the directory or the location list), with the map pages that
// lie before them. A part begins a page, and what it leaves of its last page is zeros.
#![tactic(auto)]

ghost use Rattle.std.specs.Prelude.{◌+◌, ◌*◌, ◌/◌, ◌^◌, ◌<◌, length};
ghost use Rattle.paged.specs.PageSize.{need};
ghost use Rattle.container_layout.specs.Laid.{Bounds};
ghost use Rattle.container_parts.specs.Inner.{Room, InRun, Streaming, Numbering};

use container_layout::{Layout, Planned, pages_to_map};
use container_pages::{Numbers, begin_page, put_numbers, put_zeros};
use paged::pages_needed_to_store;
use store::put;

/// A stream, from the data page of this rank on. Returns the rank of the next part. It is copied a run at a time: all
/// pages up to the next map page, or to the stream's end. The caller guarantees the room.
#[tactic(auto, using(crate::proofs::StreamLaws::streaming))]
pub fn write_stream(layout: Layout, first: usize, stream: &[u8], out: &mut [u8]) -> usize
    requires bounds { Bounds layout }
    requires stream_len_bound { length stream.now < 2 ^ 32 }
    requires room { Room layout (first + need layout.pagesize (length stream.now)) (length out.old) }
    ensures { Streaming layout first stream.now out.old result out.new }
{
    let size = layout.pagesize;
    let mut r = first;
    let mut i = 0;
    while i < stream.len() {
        let n = (pages_to_map(size, r) * size).min(stream.len() - i);
        r = write_run(layout, r, &stream[i..i + n], out);
        i += n;
    }
    r
}

// Bytes that have room before the next map page, from the data page of this rank on. Returns the rank after them.
#[tactic(auto, using(crate::proofs::StreamLaws::running))]
fn write_run(layout: Layout, first: usize, run: &[u8], out: &mut [u8]) -> usize
    requires bounds { Bounds layout }
    requires in_run { InRun layout first (length run.now) }
    requires room { Room layout (first + need layout.pagesize (length run.now)) (length out.old) }
    ensures { Streaming layout first run.now out.old result out.new }
{
    let size = layout.pagesize;
    let at = begin_page(layout, first, out);
    let pages = pages_needed_to_store(size, run.len());
    let next = put(out, at, run);
    put_zeros(out, next, at + pages * size);
    first + pages
}

/// So many pages of numbers, from the data page of this rank on. The caller guarantees the room.
#[tactic(auto, using(crate::proofs::PartLaws::numbering))]
pub fn write_numbers<N: Numbers>(
    planned: &Planned<'_>,
    numbers: &N,
    first: usize,
    pages: usize,
    out: &mut [u8],
)
    requires numbers_bound { pages * (planned.now.layout.pagesize / 4) < 2 ^ 32 }
    requires room { Room planned.now.layout (first + pages) (length out.old) }
    ensures { Numbering planned.now.layout first pages (N.list numbers.now) out.old out.new }
{
    let each = planned.layout.pagesize / 4;
    for j in 0..pages {
        let at = begin_page(planned.layout, first + j, out);
        put_numbers(numbers, j * each, each, out, at);
    }
}
