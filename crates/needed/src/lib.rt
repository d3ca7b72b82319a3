// Which parts of the file mapping reads before it comes to the stream: the location list, then the directory. A caller
// that has not read the whole file asks for these, stage by stage, and need not know the format.
//
// To answer a stage, `needed_to_map` reads the header block and the parts of the stages before it. Whether the part
// itself is in the file is not asked: `stream_count` and `map` refuse it with 6.
#![tactic(auto)]

ghost use Rattle.std.specs.Prelude.{length};
ghost use Rattle.parse_buffer.specs.Bytes.{byte_at};
ghost use Rattle.needed.specs.Inner.{Parting};
ghost use Rattle.needed.specs.Promises.{Needs};
ghost use Rattle.needed.specs.declared.Stage.TheVariants as stages;

use directory::list;
use extent::Extent;
use header::locate;
use mapping::{Mapped, fit, write_judged};
use paged::{Pages, Refusal, pages_needed_to_store};

#[derive(Clone, Copy, Debug, PartialEq, Eq)]
pub enum Stage {
    LocationList,
    Directory,
}

/// The slices of a stage's part. Steps 1 to 3 for the location list, 1 to 4 for the directory, then 10.
pub fn needed_to_map(
    file: &[u8],
    stage: Stage,
    offsets: &mut [u64],
    sizes: &mut [u64],
) -> Result<Mapped, Refusal>
    ensures { Needs (byte_at file.now) (length file.now) stage
        offsets.old sizes.old result offsets.new sizes.new }
{
    let room = offsets.len().min(sizes.len());
    let judged = fit(file, part_of(file, stage), room);
    write_judged(file, judged, offsets, sizes)
}

// A stage's part.
fn part_of(file: &[u8], stage: Stage) -> Result<Extent, Refusal>
    ensures { Parting (byte_at file.now) (length file.now) stage result }
{
    match stage {
        Stage::LocationList => location_list(file),
        Stage::Directory => directory(file),
    }
}

// The location list, after steps 1 to 3: the first 4*D bytes of its pages.
#[tactic(auto, using(paged::proofs::SizeLaws::need_le, crate::proofs::NeededLaws::list_none))]
fn location_list(file: &[u8]) -> Result<Extent, Refusal>
    ensures { Parting (byte_at file.now) (length file.now) stages.LocationList result }
{
    let h = locate(file)?;
    let pagesize = h.pagesize as usize;
    let named = pages_needed_to_store(pagesize, h.directory as usize);
    let bytes = 4 * named;
    let pages = pages_needed_to_store(pagesize, bytes);
    Ok(Extent {
        pagesize,
        list: Pages::Location,
        bytes,
        pages,
    })
}

// The directory, after steps 1 to 4: the first directory_size bytes of its pages.
#[tactic(auto, using(crate::proofs::NeededLaws::directory_none))]
fn directory(file: &[u8]) -> Result<Extent, Refusal>
    ensures { Parting (byte_at file.now) (length file.now) stages.Directory result }
{
    let h = list(file)?;
    let pagesize = h.pagesize as usize;
    let bytes = h.directory as usize;
    let pages = pages_needed_to_store(pagesize, bytes);
    Ok(Extent {
        pagesize,
        list: Pages::Directory,
        bytes,
        pages,
    })
}
