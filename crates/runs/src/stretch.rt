// Page numbers that go up by one: their pages lie next to each other in the file. Whoever reads a list of pages takes
// it a stretch at a time: `before_first`, then `next_stretch` until all entries are read.
ghost use Rattle.std.specs.Prelude.{◌≡◌, ◌+◌, ◌*◌, ◌^◌, ◌<◌, ◌≤◌, length};
ghost use Rattle.parse_buffer.specs.Bytes.{byte_at};
ghost use Rattle.paged.specs.PageSize.{PageSize};
ghost use Rattle.paged.specs.Pages.{entry_of};
ghost use Rattle.runs.specs.Inner.{Running, Lying, before_first, Rising, Standing, Stretching};

use crate::{Run, run_of};
use paged::{PageNumber, Pages};
use parse_buffer::word_in;

/// Pages that lie next to each other, and where the reading of their list stands.
#[derive(Clone, Copy, Debug, PartialEq, Eq)]
pub struct Stretch {
    /// The first page.
    pub page: PageNumber,
    /// How many there are.
    pub pages: usize,
    /// The entry after the last of them.
    pub next: usize,
    /// What is left of the run that they were read from.
    pub rest: Run,
}

/// The stretch of no entries, before entry 0.
pub fn before_first() -> Stretch
    ensures { result ≡ before_first }
{
    Stretch {
        page: PageNumber(0),
        pages: 0,
        next: 0,
        rest: Run { at: 0, words: 0 },
    }
}

/// The stretch after this one, of a list of n entries. It may end before the page numbers stop going up, with its run.
pub fn next_stretch(file: &[u8], size: usize, pages: Pages, n: usize, s: Stretch) -> Stretch
    requires page_size { PageSize size }
    requires n_bound { entry_of pages n ≤ 2 ^ 32 }
    requires lying { Lying (byte_at file.now) (length file.now) size pages n }
    requires standing { Standing (byte_at file.now) size pages n s }
    requires next_lt_n { s.next < n }
    ensures { Stretching (byte_at file.now) size pages n s.next result }
{
    let run = some_run(file, size, pages, s.next, n - s.next, s.rest);
    let m = rising(file, run.at, run.words);
    Stretch {
        page: PageNumber(word_in(file, run.at)),
        pages: m,
        next: s.next + m,
        rest: Run {
            at: run.at + 4 * m,
            words: run.words - m,
        },
    }
}

// The rest of a run, or the next run if there is no rest.
fn some_run(file: &[u8], size: usize, pages: Pages, i: usize, n: usize, rest: Run) -> Run
    requires page_size { PageSize size }
    requires i_bound { entry_of pages i < 2 ^ 32 }
    requires n_nonzero { 0 < n }
    requires running { Running (byte_at file.now) size pages i n rest }
    ensures found { Running (byte_at file.now) size pages i n result }
    ensures words_nonzero { 0 < result.words }
{
    if rest.words == 0 {
        run_of(file, size, pages, i, n)
    } else {
        rest
    }
}

// How many of the n words at a place go up by one, from the first on.
fn rising(file: &[u8], at: usize, n: usize) -> usize
    requires n_nonzero { 0 < n }
    requires in_file { at + 4 * n ≤ length file.now }
    ensures { Rising (byte_at file.now) at n result }
{
    let first = word_in(file, at) as usize;
    for m in 1..n {
        if word_in(file, at + 4 * m) as usize != first + m {
            return m;
        }
    }
    n
}
