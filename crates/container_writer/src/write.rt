// Writing a container. Everything is judged first, so a refusal has written nothing.
ghost use Rattle.container_writer.specs.Promises.{Writing};

use crate::file::Contents;
use container_layout::{Planned, Refusal, plan};

/// Writes the file to the front of the store, and returns how many bytes it has. A size of 0xffffffff is that of an
/// absent stream, and the present ones have their bytes in `bytes`, end to end. Refuses with 3, 22, 23, 24 or 10, in
/// this order.
#[tactic(auto, using(crate::proofs::WriteLaws::plan_fits))]
pub fn write_container(
    page_size: u32,
    sizes: &[u32],
    bytes: &[u8],
    out: &mut [u8],
) -> Result<usize, Refusal>
    ensures { Writing page_size sizes.now bytes.now out.old result out.new }
{
    let layout = plan(page_size, sizes, bytes.len())?;
    let needed = layout.used * layout.pagesize;
    if out.len() < needed {
        return Err(Refusal::NoRoom(needed));
    }
    let planned = Planned { layout, sizes };
    Contents { planned, bytes }.write_file(out);
    Ok(needed)
}
