// Writing a list of records. The first pass judges and measures it and the second writes it, so a refusal has written
// nothing.
ghost use Rattle.std.specs.Prelude.{◌≡◌, ◌≤◌, ◌<◌, length};
ghost use Rattle.std.proofs.lemmas.List.Edits.{sets};
ghost use Rattle.annotation_records.specs.Records.{count, record_at};
ghost use Rattle.annotation_writer.specs.Refusal.{told};
ghost use Rattle.annotation_writer.specs.Writing.{list_bytes, measuring};
ghost use Rattle.annotation_writer.specs.Inner.{Width, AllWritable};
ghost use Rattle.annotation_writer.specs.Promises.{Writing};

use crate::refusal::Refusal;
use annotation_records::{ENTRIES_EACH, is_writable, numbers_of, record_at};

/// Writes the list to the front of the store, with no closing opcode, and returns how many bytes it takes. Refuses with
/// 21, 20 or 10, in this order.
#[tactic(auto, using(crate::proofs::WriteLaws::returns_cases), unfolding(crate::specs::Writing::writing, outcome::specs::Store::written, outcome::specs::Outcome::raise, outcome::specs::Outcome::require, outcome::specs::Outcome::and_then, outcome::specs::Outcome::and_next))]
pub fn write_annotations(records: &[i64], out: &mut [u8]) -> Result<usize, Refusal>
    ensures { Writing records.now out.old result out.new }
{
    let needed = measure(records)?;
    if out.len() < needed {
        return Err(Refusal::NoRoom(needed));
    }
    write_all(records, out);
    Ok(needed)
}

// Measures the list, unless it is ragged or has a bad record.
#[tactic(auto, using(crate::proofs::WriteLaws::measure_cases), unfolding(crate::specs::Writing::measuring, outcome::specs::Outcome::raise, outcome::specs::Outcome::require, outcome::specs::Outcome::and_next))]
fn measure(records: &[i64]) -> Result<usize, Refusal>
    ensures { told result ≡ measuring records.now }
{
    if records.len() % ENTRIES_EACH != 0 {
        return Err(Refusal::RaggedList);
    }
    let mut total = 0;
    for k in 0..records.len() / ENTRIES_EACH {
        let Some(width) = width_at(records, k) else {
            return Err(Refusal::BadRecord(k));
        };
        total += width;
    }
    Ok(total)
}

// How many bytes record k takes, if it can be written.
#[tactic(auto, using(crate::proofs::WriteLaws::width_cases))]
fn width_at(records: &[i64], k: usize) -> Option<usize>
    requires { k < count records.now }
    ensures { Width (record_at records.now k) result }
{
    let r = record_at(records, k);
    if is_writable(r) {
        Some(numbers_of(r).width())
    } else {
        None
    }
}

// Writes all records from the front. The caller guarantees that each can be written, and the room.
#[tactic(auto, using(crate::proofs::WriteLaws::write_cases))]
fn write_all(records: &[i64], out: &mut [u8])
    requires all_writable { AllWritable records.now }
    requires room { length (list_bytes records.now) ≤ length out.old }
    ensures { out.new ≡ sets out.old 0 (list_bytes records.now) }
{
    let mut at = 0;
    for k in 0..records.len() / ENTRIES_EACH {
        at = numbers_of(record_at(records, k)).put(out, at);
    }
}
