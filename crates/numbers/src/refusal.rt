// Why a number or a step is refused: document 01's refusals 7, 8 and 9.
ghost use Rattle.numbers.specs.Refusal.{refusal_in};

use outcome::Numbered;

/// Why a number or a step is refused.
#[derive(Clone, Copy, Debug, PartialEq, Eq)]
pub enum Refusal {
    /// A number reaches past the bytes.
    ShortData,
    /// A first byte of 0xe0 or more, with four bytes there.
    InvalidCompressedAnnotation,
    /// An opcode above 13.
    UnknownBinaryAnnotation(u32),
}

/// A refusal, and the place after it.
#[derive(Clone, Copy, Debug, PartialEq, Eq)]
pub struct PlacedRefusal {
    pub refusal: Refusal,
    pub place: usize,
}

impl Numbered for Refusal {
    ghost on_paper = { refusal_in };

    fn number(self) -> u32 {
        match self {
            Refusal::ShortData => 7,
            Refusal::InvalidCompressedAnnotation => 8,
            Refusal::UnknownBinaryAnnotation(_) => 9,
        }
    }

    fn value(self) -> u64 {
        match self {
            Refusal::ShortData | Refusal::InvalidCompressedAnnotation => 0,
            Refusal::UnknownBinaryAnnotation(opcode) => u64::from(opcode),
        }
    }
}
