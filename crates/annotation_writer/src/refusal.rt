// Why a list of records is refused: request 2026-01's refusals 20 and 21, and 10.
ghost use Rattle.annotation_writer.specs.Refusal.{refusal_in};

use outcome::Numbered;

#[derive(Clone, Copy, Debug, PartialEq, Eq)]
pub enum Refusal {
    /// The first record, counted from 0, that has an opcode outside 1 to 13 or a number that its opcode cannot carry.
    BadRecord(usize),
    /// The list is no whole number of records.
    RaggedList,
    /// The bytes needed.
    NoRoom(usize),
}

impl Numbered for Refusal {
    ghost on_paper = { refusal_in };

    fn number(self) -> u32 {
        match self {
            Refusal::BadRecord(_) => 20,
            Refusal::RaggedList => 21,
            Refusal::NoRoom(_) => 10,
        }
    }

    fn value(self) -> u64 {
        match self {
            Refusal::BadRecord(index) => index as u64,
            Refusal::RaggedList => 0,
            Refusal::NoRoom(needed) => needed as u64,
        }
    }
}
