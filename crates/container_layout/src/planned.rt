// A container that is planned: what the writing of each part starts from.
ghost use Rattle.container_layout.specs.Laid.{Laid, Bounds};

use crate::layout::Layout;

/// The sizes of the streams, and where their parts lie.
#[derive(Clone, Copy)]
pub struct Planned<'a> {
    pub layout: Layout,
    pub sizes: &'a [u32],
    // The layout is that of these sizes, and its numbers have 32 bits.
    pub ghost laid: { Laid layout sizes.now },
    pub ghost bounds: { Bounds layout },
}
