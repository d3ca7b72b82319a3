// Decodes all annotations of a line program into a lent store. The first pass counts them and the second writes them,
// so a refusal has written nothing.
#![tactic(auto)]

mod refusal;

ghost use Rattle.std.specs.Prelude.{◌≡◌, ◌+◌, ◌≤◌, length};
ghost use Rattle.std.proofs.lemmas.List.Edits.{sets};
ghost use Rattle.decode.specs.Decode.{entries_each, entries_of, decoded_entries};
ghost use Rattle.decode.specs.Inner.{CountingAll};
ghost use Rattle.decode.specs.Promises.{Decoding};

use annotations::{Step, Triple, operands_at};
use numbers::PlacedRefusal;
pub use refusal::Refusal;
use triples::triple_of;

/// How many entries of the store an annotation takes.
pub const ENTRIES_EACH: usize = 4;

/// Decodes all annotations to the front of the store, and returns how many there are. Refuses with 7, 8, 9 or 10.
#[tactic(auto, unfolding(crate::specs::Decode::decoding, outcome::specs::Store::written, outcome::specs::Outcome::and_then, outcome::specs::Outcome::raise))]
pub fn decode_all(bytes: &[u8], store: &mut [i64]) -> Result<usize, Refusal>
    ensures { Decoding bytes.now store.old result store.new }
{
    let n = count_all(bytes)?;
    let needed = ENTRIES_EACH * n;
    if store.len() < needed {
        return Err(Refusal::NoRoom(needed));
    }
    write_all(bytes, store);
    Ok(n)
}

// Counts the annotations before the end, unless a step is refused. Nothing is made of the operands.
fn count_all(bytes: &[u8]) -> Result<usize, PlacedRefusal>
    ensures { CountingAll bytes.now result }
{
    let mut at = 0;
    let mut n = 0;
    loop {
        match operands_at(bytes, at) {
            Step::Annotation(a) => {
                at = a.next;
                n += 1;
            }
            Step::End(_) => return Ok(n),
            Step::Refused(why) => return Err(why),
        }
    }
}

// Writes the entries of all annotations from the front, for which the caller guarantees room.
fn write_all(bytes: &[u8], store: &mut [i64])
    requires { length (decoded_entries bytes.now) ≤ length store.old }
    ensures { store.new ≡ sets store.old 0 (decoded_entries bytes.now) }
{
    let mut at = 0;
    let mut i = 0;
    while let Step::Annotation(a) = operands_at(bytes, at) {
        let t = triple_of(a.opcode, a.first, a.second);
        put(store, i, t, a.shortest);
        at = a.next;
        i += ENTRIES_EACH;
    }
}

// Writes the entries of one annotation. The caller guarantees room for them.
fn put(store: &mut [i64], at: usize, t: Triple, shortest: bool)
    requires { at + entries_each ≤ length store.old }
    ensures { store.new ≡ sets store.old at (entries_of t shortest) }
{
    store[at..at + ENTRIES_EACH].copy_from_slice(&entries_of(t, shortest));
}

// The entries of one annotation, in order.
fn entries_of(t: Triple, shortest: bool) -> [i64; ENTRIES_EACH]
    ensures { result ≡ entries_of t shortest }
{
    [i64::from(t.opcode), t.first, t.second, i64::from(shortest)]
}
