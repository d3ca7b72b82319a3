// Why a line program is refused: the decoder's 7, 8 and 9, then 25 of request 2026-07, and 10.
ghost use Rattle.std.specs.Prelude.{◌≡◌};
ghost use Rattle.lines.specs.Refusal.{refusal_in, place_in};

use numbers::PlacedRefusal;
use outcome::Numbered;

#[derive(Clone, Copy, Debug, PartialEq, Eq)]
pub enum Refusal {
    /// 7, 8 or 9: the decoder's refusal, with its place.
    Annotation(PlacedRefusal),
    /// 25: the index of the annotation that cannot be run.
    BadLine(usize),
    /// 10: the entries needed.
    NoRoom(usize),
}

// By document 01's table, as request 2026-07 extends it.
impl Numbered for Refusal {
    ghost on_paper = { refusal_in };

    fn number(self) -> u32 {
        match self {
            Refusal::Annotation(why) => why.refusal.number(),
            Refusal::BadLine(_) => 25,
            Refusal::NoRoom(_) => 10,
        }
    }

    fn value(self) -> u64 {
        match self {
            Refusal::Annotation(why) => why.refusal.value(),
            Refusal::BadLine(index) => index as u64,
            Refusal::NoRoom(needed) => needed as u64,
        }
    }
}

impl Refusal {
    /// The place after the decoder's refusal. 25 and 10 have none.
    pub fn place(self) -> Option<usize>
        ensures { result ≡ place_in self }
    {
        match self {
            Refusal::Annotation(why) => Some(why.place),
            Refusal::BadLine(_) | Refusal::NoRoom(_) => None,
        }
    }
}
