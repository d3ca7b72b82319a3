// The stretches of an extent's pages, one after another.
ghost use Rattle.std.specs.Prelude.{◌≡◌, length};
ghost use Rattle.parse_buffer.specs.Bytes.{byte_at};
ghost use Rattle.runs.specs.Inner.{before_first};
ghost use Rattle.extent.specs.Inner.{Extends, EntriesLie};
ghost use Rattle.slices.specs.Inner.{StandsIn};

use extent::Extent;
use runs::{Stretch, before_first, next_stretch};

/// What is left of an extent's pages after the stretch that was read last.
#[derive(Clone, Copy)]
pub struct Stretches<'a> {
    file: &'a [u8],
    extent: Extent,
    last: Stretch,
    ghost extends: { Extends extent },
    ghost entries_lie: { EntriesLie (byte_at file.now) (length file.now) extent },
    ghost stands: { StandsIn (byte_at file.now) extent last },
}

impl<'a> Stretches<'a> {
    /// All of an extent's pages.
    pub fn new(file: &'a [u8], extent: Extent) -> Stretches<'a>
        requires extends { Extends extent }
        requires entries_lie { EntriesLie (byte_at file.now) (length file.now) extent }
        ensures file { result.file ≡ file.entry }
        ensures extent { result.extent ≡ extent }
        ensures last { result.last ≡ before_first }
    {
        Stretches {
            file,
            extent,
            last: before_first(),
        }
    }
}

impl<'a> Iterator for Stretches<'a> {
    ghost use Rattle.std.specs.Iterator.{at_most};
    ghost use Rattle.slices.specs.Stretches.{GivesStretch, pages_left};

    type Item = Stretch;

    ghost next_gives = { GivesStretch };

    ghost remaining = { λ s. at_most (pages_left s) };

    #[inline]
    fn next(&mut self) -> Option<Stretch> {
        let x = self.extent;
        if x.pages <= self.last.next {
            return None;
        }
        self.last = next_stretch(self.file, x.pagesize, x.list, x.pages, self.last);
        Some(self.last)
    }
}
