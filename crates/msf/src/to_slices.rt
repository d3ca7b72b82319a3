// Mapping a stream to slices of the file, into two lent stores: `judge` sees that the slices fit, and they are written.
ghost use Rattle.std.specs.Prelude.{length};
ghost use Rattle.parse_buffer.specs.Bytes.{byte_at};
ghost use Rattle.msf.specs.Promises.{Maps};

use mapping::{Mapped, judge, write_judged};
use paged::{Refusal, StreamNumber};

/// Steps 1 to 8, then 10.
pub fn map(
    file: &[u8],
    stream: StreamNumber,
    limit: Option<usize>,
    offsets: &mut [u64],
    sizes: &mut [u64],
) -> Result<Mapped, Refusal>
    ensures { Maps (byte_at file.now) (length file.now) stream.0 limit
        offsets.old sizes.old result offsets.new sizes.new }
{
    let room = offsets.len().min(sizes.len());
    let judged = judge(file, stream, limit, room);
    write_judged(file, judged, offsets, sizes)
}
