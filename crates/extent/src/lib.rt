// Step 8: how many bytes of a stream are asked for, and the pages that hold them.
//
// `measure` finds a stream and applies the limit. `readable` also checks that the bytes lie in the file.
#![tactic(auto)]

ghost use Rattle.std.specs.Prelude.{◌≡◌, length};
ghost use Rattle.parse_buffer.specs.Bytes.{byte_at};
ghost use Rattle.extent.specs.Extent.{length_of, asked_of, extent_of};
ghost use Rattle.extent.specs.Inner.{Extends, Held, Measuring, Reading};

use paged::{Pages, Refusal, StreamNumber, pages_needed_to_store};
use runs::lies_in_file;
use stream::{Found, find};

/// The first `bytes` bytes of a paged object. They take `pages` pages, whose numbers are the first of this list.
#[derive(Clone, Copy, Debug, PartialEq, Eq)]
pub struct Extent {
    pub pagesize: usize,
    pub list: Pages,
    pub bytes: usize,
    pub pages: usize,
}

/// Steps 1 to 8, then 6 for the bytes that are asked for.
#[tactic(auto, using(crate::proofs::ExtentLaws::reading_cases))]
pub fn readable(file: &[u8], stream: StreamNumber, limit: Option<usize>) -> Result<Extent, Refusal>
    ensures { Reading (byte_at file.now) (length file.now) stream.0 limit result }
{
    let x = measure(file, stream, limit)?;
    lies_in_file(file, x.pagesize, x.list, x.bytes, x.pages)?;
    Ok(x)
}

/// Steps 1 to 8.
#[tactic(auto, using(crate::proofs::ExtentLaws::measure_refused))]
pub fn measure(file: &[u8], stream: StreamNumber, limit: Option<usize>) -> Result<Extent, Refusal>
    ensures { Measuring (byte_at file.now) (length file.now) stream.0 limit result }
{
    let x = find(file, stream)?;
    Ok(first_bytes(x, limit))
}

/// The bytes of a stream that was found, up to the limit.
#[tactic(auto, using(crate::proofs::ExtentLaws::first_cases))]
pub fn first_bytes(x: Found, limit: Option<usize>) -> Extent
    requires { Held x }
    ensures value { result ≡ extent_of (asked_of limit x) }
    ensures extends { Extends result }
{
    let pagesize = x.header.pagesize as usize;
    let bytes = length_of(x.size as usize, limit);
    Extent {
        pagesize,
        list: Pages::Stream(x.first),
        bytes,
        pages: pages_needed_to_store(pagesize, bytes),
    }
}

// The length is the size, or the limit where that is smaller.
fn length_of(size: usize, limit: Option<usize>) -> usize
    ensures { result ≡ length_of limit size }
{
    match limit {
        Some(n) => size.min(n),
        None => size,
    }
}
