// Finding a stream in the directory, step 7: its size, and where its own page numbers stand.
#![tactic(auto)]

ghost use Rattle.std.specs.Prelude.{◌≡◌, ◌+◌, ◌*◌, ◌^◌, ◌<◌, ◌≤◌, length, IfOk};
ghost use Rattle.parse_buffer.specs.Bytes.{byte_at};
ghost use Rattle.paged.specs.PageSize.{PageSize};
ghost use Rattle.paged.specs.declared.pages.Pages.TheVariants.{Stream};
ghost use Rattle.runs.specs.Inner.{Lying};
ghost use Rattle.stream.specs.Stream.{pages_of};
ghost use Rattle.stream.specs.Inner.{Before, Within, Sizing, Skipped, Finding};

use directory::reach;
use header::Header;
use paged::{Pages, Refusal, StreamNumber, directory_word, pages_needed_to_store};
use parse_buffer::word_in;
use runs::{check_pages, run_of};

/// The size of a stream that is not there.
pub const ABSENT: u32 = 0xffffffff;

/// A stream found.
#[derive(Clone, Copy, Debug, PartialEq, Eq)]
pub struct Found {
    pub header: Header,
    /// How many bytes it has.
    pub size: u32,
    /// Which word of the directory is its first page number.
    pub first: usize,
}

/// A stream that is present.
#[derive(Clone, Copy, Debug, PartialEq, Eq)]
pub struct Present {
    pub header: Header,
    /// How many streams there are.
    pub count: u32,
    /// How many bytes this one has.
    pub size: u32,
}

/// Steps 1 to 7. All of the stream's page numbers are checked, each first 7, then 4.
#[tactic(auto, using(paged::proofs::StepLaws::steps, crate::proofs::FindLaws::find_laws), unfolding(crate::specs::Stream::found, crate::specs::Stream::skipped_to))]
pub fn find(file: &[u8], stream: StreamNumber) -> Result<Found, Refusal>
    ensures { Finding (byte_at file.now) (length file.now) stream.0 result }
{
    let x = size_of(file, stream)?;
    let h = x.header;
    let sizes = 1 + x.count as usize;
    if h.words() < sizes {
        return Err(Refusal::ShortData);
    }
    let before = pages_before(file, h.pagesize as usize, stream.0 as usize);
    find_after(file, stream, x, before)
}

/// The rest of step 7 for a stream that is present, in a directory that holds all sizes, given how many page numbers the
/// streams before it have: these are skipped, and its own are checked.
#[tactic(auto, using(crate::proofs::FindLaws::after_laws))]
pub fn find_after(
    file: &[u8],
    stream: StreamNumber,
    x: Present,
    before: usize,
) -> Result<Found, Refusal>
    requires { Skipped (byte_at file.now) (length file.now) stream.0 x before }
    ensures { Finding (byte_at file.now) (length file.now) stream.0 result }
{
    let h = x.header;
    let size = h.pagesize as usize;
    let words = h.words();
    let first = 1 + x.count as usize + before;
    if words < first {
        return Err(Refusal::ShortData);
    }
    let n = pages_needed_to_store(size, x.size as usize);
    let left = words - first;
    check_pages(file, size, h.used, Pages::Stream(first), n.min(left))?;
    if left < n {
        return Err(Refusal::ShortData);
    }
    Ok(Found {
        header: h,
        size: x.size,
        first,
    })
}

// The count is read, and the sizes 0 to the stream's own.
#[tactic(auto, using(paged::proofs::StepLaws::steps), unfolding(crate::specs::Stream::present))]
fn size_of(file: &[u8], stream: StreamNumber) -> Result<Present, Refusal>
    ensures answer { Sizing (byte_at file.now) (length file.now) stream.0 result }
    ensures page_size { IfOk result (λ x. PageSize x.header.pagesize) }
{
    let h = reach(file)?;
    let size = h.pagesize as usize;
    let words = h.words();
    if words < 1 {
        return Err(Refusal::ShortData);
    }
    let count = directory_word(file, size, 0);
    if count <= stream.0 {
        return Err(Refusal::StreamNotFound(stream));
    }
    let own = 1 + stream.0 as usize;
    if words <= own {
        return Err(Refusal::ShortData);
    }
    let bytes = directory_word(file, size, own);
    if bytes == ABSENT {
        return Err(Refusal::StreamNotFound(stream));
    }
    Ok(Present {
        header: h,
        count,
        size: bytes,
    })
}

/// How many page numbers the streams before k have. Their sizes are words of the directory from word 1 on.
pub fn pages_before(file: &[u8], size: usize, k: usize) -> usize
    requires page_size { PageSize size }
    requires k_bound { k < 2 ^ 32 }
    requires lying { Lying (byte_at file.now) (length file.now) size (Stream 1) k }
    ensures { Before (byte_at file.now) size k result }
{
    let mut i = 0;
    let mut before = 0;
    while i < k {
        let run = run_of(file, size, Pages::Stream(1), i, k - i);
        before += pages_in(file, size, run.at, run.words);
        i += run.words;
    }
    before
}

// How many page numbers the streams have whose n sizes stand here.
#[tactic(auto, using(crate::proofs::StreamLaws::within_cases))]
fn pages_in(file: &[u8], size: usize, at: usize, n: usize) -> usize
    requires page_size { PageSize size }
    requires n_bound { n ≤ 2 ^ 32 }
    requires in_file { at + 4 * n ≤ length file.now }
    ensures { Within (byte_at file.now) size at n result }
{
    let mut pages = 0;
    for j in 0..n {
        pages += pages_of(size, word_in(file, at + 4 * j));
    }
    pages
}

/// The pages of a stream of this size: none where it is absent.
#[tactic(auto, unfolding(crate::specs::Stream::pages_of))]
pub fn pages_of(size: usize, bytes: u32) -> usize
    requires { PageSize size }
    ensures { result ≡ pages_of size bytes }
{
    if bytes == ABSENT {
        0
    } else {
        pages_needed_to_store(size, bytes as usize)
    }
}
