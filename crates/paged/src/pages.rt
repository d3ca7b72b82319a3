// The three lists of page numbers, and where their entries stand in the file.
ghost use Rattle.std.specs.Prelude.{◌≡◌, ◌+◌, ◌*◌, ◌%◌, ◌^◌, ◌<◌};
ghost use Rattle.parse_buffer.specs.Bytes.{byte_at};
ghost use Rattle.paged.specs.PageSize.{PageSize};
ghost use Rattle.paged.specs.Pages.{through, location, directory_page, directory_word};
ghost use Rattle.paged.specs.Checks.{page_fits};

use crate::refusal::PageNumber;
use crate::size::{page_index, place_in_page};
use parse_buffer::word_at;

/// The location entries follow the header's 52 bytes.
pub const FIRST_ENTRY: usize = 52;

/// Which pages.
#[derive(Clone, Copy, Debug, PartialEq, Eq)]
pub enum Pages {
    /// The pages of the location list.
    Location,
    /// The pages of the directory.
    Directory,
    /// The pages of a stream whose first entry is this word of the directory.
    Stream(usize),
}

/// Word w of the directory.
#[tactic(auto, unfolding(crate::specs::Pages::directory_word))]
pub fn directory_word(file: &[u8], size: usize, w: usize) -> u32
    requires page_size { PageSize size }
    requires w_bound { w < 2 ^ 32 }
    ensures { result ≡ directory_word (byte_at file.now) size w }
{
    word_at(file, directory_place(file, size, w))
}

/// Where word w of the directory stands.
pub fn directory_place(file: &[u8], size: usize, w: usize) -> usize
    requires page_size { PageSize size }
    requires w_bound { w < 2 ^ 32 }
    ensures { result ≡ through size (directory_page (byte_at file.now) size) (4 * w) }
{
    let offset = 4 * w;
    let page = directory_page(file, size, page_index(size, offset));
    place(size, page, offset)
}

#[tactic(auto, unfolding(crate::specs::Pages::directory_page))]
fn directory_page(file: &[u8], size: usize, i: usize) -> PageNumber
    requires page_size { PageSize size }
    requires i_bound { i < 2 ^ 32 }
    ensures { result.0 ≡ directory_page (byte_at file.now) size i }
{
    PageNumber(word_at(file, list_place(file, size, i)))
}

/// Where word i of the location list stands.
pub fn list_place(file: &[u8], size: usize, i: usize) -> usize
    requires page_size { PageSize size }
    requires i_bound { i < 2 ^ 32 }
    ensures { result ≡ through size (location (byte_at file.now)) (4 * i) }
{
    let offset = 4 * i;
    let page = location_at(file, page_index(size, offset));
    place(size, page, offset)
}

#[tactic(auto, unfolding(crate::specs::Pages::location))]
fn location_at(file: &[u8], j: usize) -> PageNumber
    requires { j < 2 ^ 32 }
    ensures { result.0 ≡ location (byte_at file.now) j }
{
    PageNumber(word_at(file, FIRST_ENTRY + 4 * j))
}

// Where the byte at an offset stands, in this page.
fn place(size: usize, page: PageNumber, offset: usize) -> usize
    requires { PageSize size }
    ensures { result ≡ page.0 * size + offset % size }
{
    page.0 as usize * size + place_in_page(size, offset)
}

/// Refusal 4: whether a page number passes.
#[tactic(auto, unfolding(crate::specs::Checks::page_fits))]
pub fn page_fits(used: u32, page: PageNumber) -> bool
    ensures { result ≡ page_fits used page.0 }
{
    page.0 != 0 && page.0 < used
}
