// How much there is of each part, from the page size and the list of sizes, and whether the format can hold it. No sum
// can overflow: that of the sizes stops where it passes the input, and no stream has more pages than bytes.
ghost use Rattle.std.specs.Prelude.{◌≡◌, ◌==◌, ◌^◌, ◌<◌, length};
ghost use Rattle.paged.specs.PageSize.{PageSize};
ghost use Rattle.container_layout.specs.Planning.{layout_of};
ghost use Rattle.container_layout.specs.Layout.{bytes_up_to, stream_pages};
ghost use Rattle.container_layout.specs.Inner.{Planning, Sized, Numbered};

use crate::place::data_page;
use crate::refusal::Refusal;
use header::Header;
use paged::pages_needed_to_store;
use stream::{ABSENT, pages_of};

/// Where the parts lie: P, the pages of all streams and of the directory, the location page, which is the last data
/// page, and pages_used.
#[derive(Clone, Copy, Debug, PartialEq, Eq)]
pub struct Layout {
    pub pagesize: usize,
    pub streams: usize,
    pub directory: usize,
    pub last: usize,
    pub used: usize,
}

// A file has at least so many bytes.
const SMALLEST_FILE: usize = 4096;

// The most numbers in a directory whose size has 32 bits.
const MOST_NUMBERS: usize = 0x3fffffff;

/// Judges everything but the room, for an input of so many bytes: refuses with 3, 22, 23 or 24, in this order.
#[tactic(auto, using(crate::proofs::PlanLaws::judging), unfolding(crate::specs::Planning::planning, outcome::specs::Outcome::and_next, outcome::specs::Outcome::require, outcome::specs::Outcome::raise))]
pub fn plan(pagesize: u32, sizes: &[u32], given: usize) -> Result<Layout, Refusal>
    requires { given < 2 ^ 63 }
    ensures { Planning pagesize sizes.now given result }
{
    if !Header::size_fits(pagesize) {
        return Err(Refusal::InvalidPageSize(pagesize));
    }
    if !sum_is(sizes, given) {
        return Err(Refusal::SizesDiffer);
    }
    let size = pagesize as usize;
    let streams = stream_pages(size, sizes);
    let numbers = 1 + sizes.len() + streams;
    // a page holds size / 4 numbers, and so does the location page
    if size / 4 * (size / 4) < numbers {
        return Err(Refusal::DirectoryTooLarge);
    }
    if MOST_NUMBERS < numbers {
        return Err(Refusal::Over32Bits);
    }
    Ok(lay_out(size, sizes, streams, numbers))
}

// The layout of a container that the format can hold.
#[tactic(auto, using(crate::proofs::PlanLaws::laying))]
fn lay_out(size: usize, sizes: &[u32], streams: usize, numbers: usize) -> Layout
    requires page_size { PageSize size }
    requires numbered { Numbered size sizes.now streams numbers }
    ensures { result ≡ layout_of size sizes.now }
{
    let directory = pages_needed_to_store(size, 4 * numbers);
    let last = data_page(size, streams + directory);
    Layout {
        pagesize: size,
        streams,
        directory,
        last,
        used: (last + 1).max(pages_needed_to_store(size, SMALLEST_FILE)),
    }
}

// Whether the present sizes sum to the input's length.
#[tactic(auto, using(crate::proofs::PlanLaws::summing))]
fn sum_is(sizes: &[u32], given: usize) -> bool
    ensures { result ≡ bytes_up_to sizes.now (length sizes.now) == given }
{
    let mut left = given;
    for &size in sizes {
        let Some(rest) = left.checked_sub(present_bytes(size)) else {
            return false;
        };
        left = rest;
    }
    left == 0
}

// The pages of all streams. They have at least as many bytes.
#[tactic(auto, using(crate::proofs::PlanLaws::paging))]
fn stream_pages(pagesize: usize, sizes: &[u32]) -> usize
    requires page_size { PageSize pagesize }
    requires few { bytes_up_to sizes.now (length sizes.now) < 2 ^ 63 }
    ensures all { result ≡ stream_pages pagesize sizes.now }
    ensures few { result < 2 ^ 63 }
{
    let mut pages = 0;
    for &size in sizes {
        pages += pages_of(pagesize, size);
    }
    pages
}

/// The bytes of a stream of this size: none where it is absent.
#[tactic(auto, unfolding(crate::specs::Layout::present_bytes))]
pub fn present_bytes(size: u32) -> usize
    ensures { Sized size result }
{
    if size == ABSENT { 0 } else { size as usize }
}
