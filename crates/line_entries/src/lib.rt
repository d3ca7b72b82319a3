// A line record in the store: eight signed numbers (docs/LINES.md).
#![tactic(auto)]

ghost use Rattle.std.specs.Prelude.{◌≡◌, ◌+◌, ◌^◌, ◌≤◌, ◌<◌, length};
ghost use Rattle.std.proofs.lemmas.List.Edits.{sets};
ghost use Rattle.line_entries.specs.Entries.{listed, entries_each, length_entry, line_entries};
ghost use Rattle.line_entries.specs.Inner.{Appending};

use line_state::Line;

/// How many entries of the store a record takes.
pub const ENTRIES_EACH: usize = 8;

/// Writes a record, if there is one, as record n of the store, if that has the room. Returns how many records there are
/// then.
#[tactic(auto, unfolding(crate::specs::Entries::entries))]
pub fn put(store: &mut [i64], n: usize, line: Option<Line>) -> usize
    requires { n < 2 ^ 63 }
    ensures { Appending (listed line) store.old n store.new result }
{
    let Some(line) = line else {
        return n;
    };
    if n < store.len() / ENTRIES_EACH {
        put_line(store, ENTRIES_EACH * n, line);
    }
    n + 1
}

// Writes a record. The caller guarantees the room.
fn put_line(store: &mut [i64], at: usize, line: Line)
    requires { at + entries_each ≤ length store.old }
    ensures { store.new ≡ sets store.old at (line_entries line) }
{
    store[at..at + ENTRIES_EACH].copy_from_slice(&entries_of(line));
}

// The entries of a record, in order.
fn entries_of(line: Line) -> [i64; ENTRIES_EACH]
    ensures { result ≡ line_entries line }
{
    let Line { at, length } = line;
    [
        at.offset() as i64,
        entry_of(length),
        i64::from(at.file),
        at.line,
        i64::from(at.count),
        i64::from(at.kind),
        i64::from(at.start),
        at.end,
    ]
}

// The entry of a length: -1 for none.
fn entry_of(length: Option<u32>) -> i64
    ensures { result ≡ length_entry length }
{
    match length {
        None => -1,
        Some(n) => i64::from(n),
    }
}
