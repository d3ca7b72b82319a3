// Places in a listing. Its lines are numbered: 0 is the head, 1 + k is stream k's.
ghost use Rattle.std.specs.Prelude.{◌≡◌};
ghost use Rattle.listing.specs.Listing.{line_of, place_of};

use paged::StreamNumber;

/// Where a listing begins, goes on or has ended.
#[derive(Clone, Copy, Debug, PartialEq, Eq)]
pub enum Place {
    Head,
    Stream(StreamNumber),
    End,
}

// The line at a place; a stream that is not there is past the last line, as the end is.
pub(crate) fn line_of(count: u32, place: Place) -> usize
    ensures { result ≡ line_of count place }
{
    match place {
        Place::Head => 0,
        Place::Stream(stream) => 1 + stream.0.min(count) as usize,
        Place::End => 1 + count as usize,
    }
}

// The place of a line.
pub(crate) fn place_of(count: u32, line: usize) -> Place
    ensures { result ≡ place_of count line }
{
    if line == 0 {
        Place::Head
    } else if line <= count as usize {
        Place::Stream(StreamNumber((line - 1) as u32))
    } else {
        Place::End
    }
}
