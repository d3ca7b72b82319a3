// Why nothing was decoded: a step's refusal, with its place, or a store that is too small.
ghost use Rattle.decode.specs.Refusal.{refusal_in, place_in};
ghost use Rattle.decode.specs.declared.refusal.Refusal.TheVariants.{Annotation};
ghost use Rattle.std.specs.Prelude.{◌≡◌};

use numbers::PlacedRefusal;
use outcome::Numbered;

/// Why nothing was decoded.
#[derive(Clone, Copy, Debug, PartialEq, Eq)]
pub enum Refusal {
    /// A step was refused.
    Annotation(PlacedRefusal),
    /// 10: the store is too small for so many entries.
    NoRoom(usize),
}

impl From<PlacedRefusal> for Refusal {
    ghost from_gives = { λ why e. e ≡ Annotation why };

    fn from(why: PlacedRefusal) -> Refusal {
        Refusal::Annotation(why)
    }
}

impl Numbered for Refusal {
    ghost on_paper = { refusal_in };

    fn number(self) -> u32 {
        match self {
            Refusal::Annotation(why) => why.refusal.number(),
            Refusal::NoRoom(_) => 10,
        }
    }

    fn value(self) -> u64 {
        match self {
            Refusal::Annotation(why) => why.refusal.value(),
            Refusal::NoRoom(needed) => needed as u64,
        }
    }
}

impl Refusal {
    /// The place after a step that was refused. 10 has none.
    pub fn place(self) -> Option<usize>
        ensures { result ≡ place_in self }
    {
        match self {
            Refusal::Annotation(why) => Some(why.place),
            Refusal::NoRoom(_) => None,
        }
    }
}
