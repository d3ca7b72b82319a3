// Mapping in two steps. `judge` answers the bytes whose slices are to be written, or why there are none; no store is
// lent there, so both forms of the operation use it (`msf::map`, `slice_store::map_into`). `write_judged` writes the
// slices of what was judged to two lent stores.
//
// `fit`, the part of `judge` that is about room, and `write_judged` take any extent, not only a stream's.
#![tactic(auto)]

ghost use Rattle.std.specs.Prelude.{min, length, IfOk};
ghost use Rattle.parse_buffer.specs.Bytes.{byte_at};
ghost use Rattle.extent.specs.Inner.{Sound};
ghost use Rattle.mapping.specs.Inner.{Writable, Fitting, Judging, Puts};

use extent::{Extent, measure};
use paged::{Refusal, StreamNumber};
use slices::{count_slices, write_slices};

/// How many slices there are, and how many bytes they have.
#[derive(Clone, Copy, Debug, PartialEq, Eq)]
pub struct Mapped {
    pub slices: usize,
    pub length: usize,
}

/// Steps 1 to 8, then 10, for a store of so many slices.
#[tactic(auto, using(crate::proofs::MappingLaws::judge_fine))]
pub fn judge(
    file: &[u8],
    stream: StreamNumber,
    limit: Option<usize>,
    room: usize,
) -> Result<Extent, Refusal>
    ensures { Judging (byte_at file.now) (length file.now) stream.0 limit room result }
{
    fit(file, measure(file, stream, limit), room)
}

/// What was measured, or 10 if its slices have no room. There are no more slices than pages, so they are counted only
/// if the store is shorter than that.
#[tactic(auto, using(crate::proofs::MappingLaws::fit_no_room))]
pub fn fit(file: &[u8], measured: Result<Extent, Refusal>, room: usize) -> Result<Extent, Refusal>
    requires { Sound (byte_at file.now) (length file.now) measured }
    ensures { Fitting (byte_at file.now) (length file.now) room measured result }
{
    let x = measured?;
    if x.pages <= room {
        return Ok(x);
    }
    let needed = count_slices(file, x);
    if room < needed {
        return Err(Refusal::NoRoom(needed));
    }
    Ok(x)
}

/// The slices of what was judged go to the front of the two stores. The caller guarantees room.
#[tactic(auto, using(crate::proofs::MappingLaws::write_cases))]
pub fn write_judged(
    file: &[u8],
    judged: Result<Extent, Refusal>,
    offsets: &mut [u64],
    sizes: &mut [u64],
) -> Result<Mapped, Refusal>
    requires { IfOk judged
        (Writable (byte_at file.now) (length file.now) (min (length offsets.old) (length sizes.old))) }
    ensures { Puts (byte_at file.now) judged
        offsets.old sizes.old result offsets.new sizes.new }
{
    let x = judged?;
    let slices = write_slices(file, x, offsets, sizes);
    Ok(Mapped {
        slices,
        length: x.bytes,
    })
}
