// A line of the listing, for crate `listing`. A stream's line shows the answer of mapping it whole, without a store.
//
// cursor.rt: where a listing stands. This file: the text of a line.
#![tactic(auto)]

mod cursor;

ghost use Rattle.std.specs.Prelude.{◌≡◌, ◌≤◌, ◌<◌, length};
ghost use Rattle.parse_buffer.specs.Bytes.{byte_at};
ghost use Rattle.stream.specs.Inner.{Before};
ghost use Rattle.store.specs.Putting.{Putting};
ghost use Rattle.listing_whole.specs.Inner.{Whole};
ghost use Rattle.listing_line.specs.Line.{line_text, shown};
ghost use Rattle.listing_line.specs.Inner.{shown_in};

pub use cursor::Cursor;
use extent::first_bytes;
use listing_text::{write_absent, write_refusal, write_size, write_stream};
use listing_whole::Listable;
use outcome::Numbered;
use paged::{Refusal, StreamNumber, directory_word};
use slices::count_slices;
use stream::{ABSENT, Present, find_after};

// A present stream's size, and how many slices it has.
#[derive(Clone, Copy, Debug, PartialEq, Eq)]
struct Shown {
    pub size: u32,
    pub slices: usize,
}

// Writes the line of stream k, of which this is shown: nothing if it is absent.
fn write_shown(text: &mut [u8], k: u32, line: Result<Option<Shown>, Refusal>) -> usize
    requires { 80 ≤ length text.old }
    ensures { Putting (line_text k (shown_in line)) text.old 0 text.new result }
{
    let at = write_stream(text, k);
    match line {
        Ok(Some(shown)) => write_size(text, at, shown.size, shown.slices),
        Ok(None) => write_absent(text, at),
        Err(why) => write_refusal(text, at, why.number(), why.value()),
    }
}

// What the line of a stream shows. `before` is how many page numbers the streams before it have.
fn show(
    file: &[u8],
    s: Listable,
    stream: StreamNumber,
    before: usize,
) -> Result<Option<Shown>, Refusal>
    requires whole { Whole (byte_at file.now) (length file.now) s }
    requires stream_lt_count { stream.0 < s.count }
    requires pages_before { Before (byte_at file.now) s.header.pagesize stream.0 before }
    ensures { shown_in result ≡ shown (byte_at file.now) (length file.now) stream.0 }
{
    let size = directory_word(file, s.header.pagesize as usize, 1 + stream.0 as usize);
    if size == ABSENT {
        return Ok(None);
    }
    let present = Present {
        header: s.header,
        count: s.count,
        size,
    };
    let found = find_after(file, stream, present, before)?;
    let slices = count_slices(file, first_bytes(found, None));
    Ok(Some(Shown {
        size: found.size,
        slices,
    }))
}
