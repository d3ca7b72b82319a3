// A record of the list: document 01's three entries of an annotation.
ghost use Rattle.std.specs.Prelude.{◌≡◌, ◌<◌};
ghost use Rattle.annotation_records.specs.Records.{count, record_at};

/// How many entries of the list a record takes.
pub const ENTRIES_EACH: usize = 3;

/// Three entries of the list, as they stand there.
#[derive(Clone, Copy, Debug, PartialEq, Eq)]
pub struct Record {
    pub opcode: i64,
    pub first: i64,
    pub second: i64,
}

/// Reads record k, counted from 0. The caller guarantees that it is there.
pub fn record_at(list: &[i64], k: usize) -> Record
    requires { k < count list.now }
    ensures { result ≡ record_at list.now k }
{
    let at = ENTRIES_EACH * k;
    Record {
        opcode: list[at],
        first: list[at + 1],
        second: list[at + 2],
    }
}
