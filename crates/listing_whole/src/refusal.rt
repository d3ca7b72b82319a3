// Why a file is not listed at all: the container's refusals, and document 01's 11.
ghost use Rattle.std.specs.Prelude.{◌≡◌};
ghost use Rattle.listing_whole.specs.Whole.{list_refusal_in};
ghost use Rattle.listing_whole.specs.declared.refusal.ListRefusal.TheVariants.{Container};

use outcome::Numbered;
use paged::Refusal;

/// A file that is listed has at most so many bytes.
pub const INPUT_LIMIT: usize = 65536;

/// A file that is listed has at most so many streams.
pub const STREAM_LIMIT: u32 = 4096;

/// Why a file is not listed at all.
#[derive(Clone, Copy, Debug, PartialEq, Eq)]
pub enum ListRefusal {
    /// The container is refused.
    Container(Refusal),
    /// The file has more bytes, or more streams, than this.
    OverLimit(u32),
}

impl From<Refusal> for ListRefusal {
    ghost from_gives = { λ why e. e ≡ Container why };

    fn from(why: Refusal) -> ListRefusal {
        ListRefusal::Container(why)
    }
}

impl Numbered for ListRefusal {
    ghost on_paper = { list_refusal_in };

    fn number(self) -> u32 {
        match self {
            ListRefusal::Container(why) => why.number(),
            ListRefusal::OverLimit(_) => 11,
        }
    }

    fn value(self) -> u64 {
        match self {
            ListRefusal::Container(why) => why.value(),
            ListRefusal::OverLimit(limit) => u64::from(limit),
        }
    }
}
