// All arithmetic with the page size. Each leaf asks for a page size that passes. That has one bit set, so a shift
// divides by it, and a mask gives the remainder.
ghost use Rattle.std.specs.Prelude.{◌≡◌, ◌+◌, ◌/◌, ◌%◌, ◌^◌, ◌<◌, ◌≤◌, min};
ghost use Rattle.paged.specs.PageSize.{PageSize, need};
ghost use Rattle.paged.specs.Inner.{words_left, span};

/// need(b): the pages that b bytes take.
#[tactic(auto, unfolding(crate::specs::PageSize::need))]
pub fn pages_needed_to_store(size: usize, bytes: usize) -> usize
    requires page_size { PageSize size }
    requires bytes_bound { bytes < 2 ^ 40 }
    ensures { result ≡ need size bytes }
{
    page_index(size, bytes + size - 1)
}

// Which page holds the byte at an offset, and where in that page.
pub(crate) fn page_index(size: usize, offset: usize) -> usize
    requires { PageSize size }
    ensures { result ≡ offset / size }
{
    offset >> shift_of(size)
}

#[tactic(auto, using(crate::proofs::SizeLaws::mask_is))]
pub(crate) fn place_in_page(size: usize, offset: usize) -> usize
    requires { PageSize size }
    ensures { result ≡ offset % size }
{
    offset & (size - 1)
}

// The page size is 2 to this power.
#[tactic(auto, using(crate::proofs::SizeLaws::shifts))]
fn shift_of(size: usize) -> u32
    requires { PageSize size }
    ensures power { size ≡ 2 ^ result }
    ensures below { result < 64 }
{
    size.trailing_zeros()
}

/// How many words a page has from word w of a paged object on.
#[tactic(auto, unfolding(crate::specs::Inner::words_left))]
pub fn words_left(size: usize, w: usize) -> usize
    requires page_size { PageSize size }
    requires w_bound { w < 2 ^ 32 }
    ensures { result ≡ words_left size w }
{
    (size - place_in_page(size, 4 * w)) / 4
}

/// Of an object of `bytes` bytes, how many lie in the m pages from page i on.
pub fn span_of(size: usize, bytes: usize, i: usize, m: usize) -> usize
    requires page_size { PageSize size }
    requires end_bound { i + m ≤ 2 ^ 32 }
    ensures { result ≡ span size bytes i m }
{
    let before = i * size;
    if bytes <= before {
        0
    } else {
        (m * size).min(bytes - before)
    }
}
