// The listing of a container, as bytes in a lent buffer: the head, then one line for each stream that it holds.
//
// place.rt: places in a listing. This file: the two operations. Below them stand the crates `listing_text`, the bytes
// of lines; `listing_whole`, whether a file is listed; `listing_line`, what a stream's line shows.
#![tactic(auto)]

mod place;

ghost use Rattle.std.specs.Prelude.{length};
ghost use Rattle.parse_buffer.specs.Bytes.{byte_at};
ghost use Rattle.listing_whole.specs.Whole.{list_refusal_in};
ghost use Rattle.listing.specs.Listing.{lines_in};
ghost use Rattle.listing.specs.Promises.{Lists, Refuses};
ghost use Rattle.listing.specs.Inner.{Writes};

use listing_line::Cursor;
use listing_text::{LONGEST, write_refusal};
use listing_whole::judge;
pub use listing_whole::{INPUT_LIMIT, ListRefusal, STREAM_LIMIT};
use outcome::Numbered;
pub use place::Place;
use place::{line_of, place_of};
use store::put;

/// Whole lines: how many bytes they have, and where the listing goes on.
#[derive(Clone, Copy, Debug, PartialEq, Eq)]
pub struct Part {
    pub bytes: usize,
    pub next: Place,
}

/// Writes as many whole lines as fit, from a place on, to the front of `out`. Each call judges the file anew.
pub fn list(file: &[u8], from: Place, out: &mut [u8]) -> Result<Part, ListRefusal>
    ensures { Lists (byte_at file.now) (length file.now) from out.old result out.new }
{
    let whole = judge(file)?;
    let cursor = Cursor::at(file, whole, line_of(whole.count, from));
    Ok(write_lines(cursor, out))
}

/// Writes the one line of a file that is not listed, if it fits, and returns how many bytes it wrote.
pub fn list_refusal(why: ListRefusal, out: &mut [u8]) -> usize
    ensures { Refuses (list_refusal_in why) out.old result out.new }
{
    // Made here first, since only a whole line is written to `out`.
    let mut text = [0u8; LONGEST];
    let n = write_refusal(&mut text, 0, why.number(), why.value());
    if out.len() < n {
        return 0;
    }
    put(out, 0, &text[..n])
}

// Makes line after line in a text of its own, and copies each that fits.
fn write_lines(mut cursor: Cursor, out: &mut [u8]) -> Part
    ensures { Writes (byte_at cursor.entry.file.now) (length cursor.entry.file.now)
        (lines_in (byte_at cursor.entry.file.now) (length cursor.entry.file.now)
        cursor.entry.whole.count cursor.entry.line (length out.old))
        out.old result out.new }
{
    let mut text = [0u8; LONGEST];
    let mut at = 0;
    while cursor.has_line() {
        let n = cursor.write_line(&mut text);
        if out.len() - at < n {
            return Part {
                bytes: at,
                next: place_of(cursor.count(), cursor.line()),
            };
        }
        at = put(out, at, &text[..n]);
        cursor.advance();
    }
    Part {
        bytes: at,
        next: Place::End,
    }
}
