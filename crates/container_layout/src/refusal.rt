// Why a container is not written: request 2026-05's refusals 3, 22 to 24, and 10.
ghost use Rattle.container_layout.specs.Refusal.{refusal_in};

use outcome::Numbered;

/// Why a container is not written.
#[derive(Clone, Copy, Debug, PartialEq, Eq)]
pub enum Refusal {
    /// The page size has not one bit set, or is outside the limits.
    InvalidPageSize(u32),
    /// The present sizes do not sum to the input's length.
    SizesDiffer,
    /// One location page cannot hold the directory's page numbers.
    DirectoryTooLarge,
    /// directory_size passes 32 bits. (pages_used does not, before that does.)
    Over32Bits,
    /// The bytes needed.
    NoRoom(usize),
}

impl Numbered for Refusal {
    ghost on_paper = { refusal_in };

    fn number(self) -> u32 {
        match self {
            Refusal::InvalidPageSize(_) => 3,
            Refusal::SizesDiffer => 22,
            Refusal::DirectoryTooLarge => 23,
            Refusal::Over32Bits => 24,
            Refusal::NoRoom(_) => 10,
        }
    }

    fn value(self) -> u64 {
        match self {
            Refusal::InvalidPageSize(size) => u64::from(size),
            Refusal::NoRoom(needed) => needed as u64,
            Refusal::SizesDiffer | Refusal::DirectoryTooLarge | Refusal::Over32Bits => 0,
        }
    }
}
