// The page numbers of a paged object, read in place. Entries that stand in one page of their list are a run: the page
// is looked up once, and its words are read one after the other.
//
// This file: runs, and the two checks that each list meets. stretch.rt: page numbers that go up by one.
#![tactic(auto)]

mod stretch;

ghost use Rattle.std.specs.Prelude.{◌≡◌, ◌+◌, ◌*◌, ◌^◌, ◌<◌, ◌≤◌, length};
ghost use Rattle.parse_buffer.specs.Bytes.{byte_at};
ghost use Rattle.paged.specs.PageSize.{PageSize, need};
ghost use Rattle.paged.specs.Pages.{page_of, entry_of};
ghost use Rattle.paged.specs.Inner.{span};
ghost use Rattle.paged.specs.Checks.{check_pages, lies_in_file};
ghost use Rattle.paged.specs.Refusal.{told};
ghost use Rattle.runs.specs.Inner.{in_page, Running, Lying, Fitting};

use paged::{
    FIRST_ENTRY, PageNumber, Pages, Refusal, directory_place, list_place, page_fits, span_of,
    words_left,
};
use parse_buffer::word_in;
pub use stretch::{Stretch, before_first, next_stretch};

/// Entries that stand one after the other.
#[derive(Clone, Copy, Debug, PartialEq, Eq)]
pub struct Run {
    /// Where they begin in the file.
    pub at: usize,
    /// How many there are.
    pub words: usize,
}

/// The first n page numbers are checked in order, and the first that is out of range is refused.
pub fn check_pages(
    file: &[u8],
    size: usize,
    used: u32,
    pages: Pages,
    n: usize,
) -> Result<(), Refusal>
    requires page_size { PageSize size }
    requires n_bound { entry_of pages n ≤ 2 ^ 32 }
    requires lying { Lying (byte_at file.now) (length file.now) size pages n }
    ensures { told result ≡ check_pages used (page_of (byte_at file.now) size pages) n }
{
    let mut i = 0;
    while i < n {
        let run = run_of(file, size, pages, i, n - i);
        let good = fitting(file, run.at, run.words, used);
        if good < run.words {
            let page = PageNumber(word_in(file, run.at + 4 * good));
            return Err(Refusal::PageReferenceOutOfRange(page));
        }
        i += run.words;
    }
    Ok(())
}

/// The first `bytes` bytes of these pages, which take n of them, lie in the file.
pub fn lies_in_file(
    file: &[u8],
    size: usize,
    pages: Pages,
    bytes: usize,
    n: usize,
) -> Result<(), Refusal>
    requires page_size { PageSize size }
    requires n_bound { entry_of pages n ≤ 2 ^ 32 }
    requires n_value { n ≡ need size bytes }
    requires lying { Lying (byte_at file.now) (length file.now) size pages n }
    ensures { told result
        ≡ lies_in_file (length file.now) size (page_of (byte_at file.now) size pages) bytes n }
{
    let len = file.len();
    let mut s = before_first();
    while s.next < n {
        let i = s.next;
        s = next_stretch(file, size, pages, n, s);
        let end = end_of(size, s.page, bytes, i, s.pages);
        if len < end {
            return Err(Refusal::FileEnds);
        }
    }
    Ok(())
}

// Where what is wanted of m pages ends in the file: the pages from page i of an object on, which go up by one.
fn end_of(size: usize, page: PageNumber, bytes: usize, i: usize, m: usize) -> usize
    requires page_size { PageSize size }
    requires end_bound { i + m ≤ 2 ^ 32 }
    ensures { result ≡ page.0 * size + span size bytes i m }
{
    page.0 as usize * size + span_of(size, bytes, i, m)
}

/// The run that entry i of a list begins, of n entries at most.
pub fn run_of(file: &[u8], size: usize, pages: Pages, i: usize, n: usize) -> Run
    requires page_size { PageSize size }
    requires i_bound { entry_of pages i < 2 ^ 32 }
    requires n_nonzero { 0 < n }
    ensures running { Running (byte_at file.now) size pages i n result }
    ensures words_nonzero { 0 < result.words }
{
    match pages {
        Pages::Location => Run {
            at: FIRST_ENTRY + 4 * i,
            words: n,
        },
        Pages::Directory => in_page(size, list_place(file, size, i), i, n),
        Pages::Stream(first) => {
            let w = first + i;
            in_page(size, directory_place(file, size, w), w, n)
        }
    }
}

// The words of one page, from word w of the paged object on, which stands here; n at most.
fn in_page(size: usize, at: usize, w: usize, n: usize) -> Run
    requires page_size { PageSize size }
    requires w_bound { w < 2 ^ 32 }
    ensures { result ≡ in_page size at w n }
{
    Run {
        at,
        words: words_left(size, w).min(n),
    }
}

// How many of the n words at a place are page numbers that pass, from the front.
#[tactic(auto, using(crate::proofs::CheckLaws::fit_cases))]
fn fitting(file: &[u8], at: usize, n: usize, used: u32) -> usize
    requires { at + 4 * n ≤ length file.now }
    ensures { Fitting (byte_at file.now) at n used result }
{
    for j in 0..n {
        let page = PageNumber(word_in(file, at + 4 * j));
        if !page_fits(used, page) {
            return j;
        }
    }
    n
}
