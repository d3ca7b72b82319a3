// From a stream's pages to slices: the Rust's `PageList` (`src/msf/page_list.rs`), with no list kept. The pages are
// walked a stretch at a time, each with as many of its bytes as the length still wants: `push` and `truncate` in one
// step.
//
// stretches.rt: the stretches of an extent's pages as an iterator, for every loop over them. This file: the walk over
// them. `count_slices` counts, `write_slices` writes two lent stores. A caller with another kind of store uses `begin`
// and `extend`.
#![tactic(auto)]

mod stretches;

ghost use Rattle.std.specs.Prelude.{◌≡◌, ◌-◌, ◌<◌, ◌≤◌, length, set};
ghost use Rattle.parse_buffer.specs.Bytes.{byte_at};
ghost use Rattle.extent.specs.Inner.{Extends, EntriesLie};
ghost use Rattle.slices.specs.Inner.{slices_through, start, joins, onward, Near, Ahead, Writing};

use extent::Extent;
use paged::{PageNumber, span_of};
use runs::Stretch;
pub use stretches::Stretches;

/// An offset and a size in the file.
#[derive(Clone, Copy, Debug, PartialEq, Eq)]
pub struct SourceSlice {
    pub offset: u64,
    pub size: usize,
}

/// Where a walk stands: how many slices there are so far, the page that would lengthen the last of them, and that slice
/// as far as it reaches.
#[derive(Clone, Copy, Debug, PartialEq, Eq)]
pub struct Walk {
    pub count: usize,
    pub after: usize,
    pub slice: SourceSlice,
}

/// How many slices these bytes make.
pub fn count_slices(file: &[u8], x: Extent) -> usize
    requires extends { Extends x }
    requires entries_lie { EntriesLie (byte_at file.now) (length file.now) x }
    ensures { result ≡ length (slices_through (byte_at file.now) x) }
{
    let mut walk = begin();
    for s in Stretches::new(file, x) {
        walk = extend(x, s.next - s.pages, s, walk);
    }
    walk.count
}

/// Writes the slices to the front of the two stores, and returns how many there are. The caller guarantees room.
pub fn write_slices(file: &[u8], x: Extent, offsets: &mut [u64], sizes: &mut [u64]) -> usize
    requires extends { Extends x }
    requires entries_lie { EntriesLie (byte_at file.now) (length file.now) x }
    requires offsets_room { length (slices_through (byte_at file.now) x) ≤ length offsets.old }
    requires sizes_room { length (slices_through (byte_at file.now) x) ≤ length sizes.old }
    ensures { Writing (slices_through (byte_at file.now) x) result
        offsets.old sizes.old offsets.new sizes.new }
{
    let mut walk = begin();
    for s in Stretches::new(file, x) {
        walk = extend(x, s.next - s.pages, s, walk);
        put(offsets, sizes, walk);
    }
    walk.count
}

/// A walk over no page yet.
pub fn begin() -> Walk
    ensures { result ≡ start }
{
    Walk {
        count: 0,
        after: 0,
        slice: SourceSlice { offset: 0, size: 0 },
    }
}

/// The walk over a stretch of pages too, from page i on.
pub fn extend(x: Extent, i: usize, s: Stretch, walk: Walk) -> Walk
    requires extends { Extends x }
    requires ahead { Ahead x i s }
    requires near { Near x.pagesize i walk }
    ensures { result ≡ onward x i s walk }
{
    let more = span_of(x.pagesize, x.bytes, i, s.pages);
    let after = s.page.0 as usize + s.pages;
    if follows(walk, s.page) {
        Walk {
            count: walk.count,
            after,
            slice: SourceSlice {
                offset: walk.slice.offset,
                size: walk.slice.size + more,
            },
        }
    } else {
        Walk {
            count: walk.count + 1,
            after,
            slice: SourceSlice {
                offset: u64::from(s.page.0) * x.pagesize as u64,
                size: more,
            },
        }
    }
}

// Whether a page lengthens the last slice.
fn follows(walk: Walk, page: PageNumber) -> bool
    ensures { result ≡ joins walk.count walk.after page.0 }
{
    walk.count != 0 && page.0 as usize == walk.after
}

// The last slice, as far as it reaches, in its place.
fn put(offsets: &mut [u64], sizes: &mut [u64], walk: Walk)
    requires count_nonzero { 0 < walk.count }
    requires in_offsets { walk.count ≤ length offsets.old }
    requires in_sizes { walk.count ≤ length sizes.old }
    ensures offsets_after { offsets.new ≡ set offsets.old (walk.count - 1) walk.slice.offset }
    ensures sizes_after { sizes.new ≡ set sizes.old (walk.count - 1) walk.slice.size }
{
    offsets[walk.count - 1] = walk.slice.offset;
    sizes[walk.count - 1] = walk.slice.size as u64;
}
