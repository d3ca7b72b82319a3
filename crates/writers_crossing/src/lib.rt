// What crosses of the writers: each as a function that returns a number, and writes the length to the number that it is
// lent. `trovespan` exports these.
#![tactic(auto)]

ghost use Rattle.writers_crossing.specs.Promises.{Writes, Packs};
ghost use Rattle.writers_crossing.specs.Statements.{SingleValued};

use crossing::tell;

/// `value` is the number of bytes written.
#[tactic(auto, unfolding(crossing::specs::Crossing::told, outcome::specs::Outcome::raise))]
pub fn write_annotations(records: &[i64], out: &mut [u8], value: &mut u64) -> u32
    ensures { Writes records.now out.old result value.new out.new }
{
    let written = annotation_writer::write_annotations(records, out);
    tell(written.map(|n| n as u64), value)
}

/// `value` is the file's length.
#[tactic(auto, unfolding(crossing::specs::Crossing::told, outcome::specs::Outcome::raise))]
pub fn write_container(
    page_size: u32,
    sizes: &[u32],
    bytes: &[u8],
    out: &mut [u8],
    value: &mut u64,
) -> u32
    ensures { Packs page_size sizes.now bytes.now out.old
        result value.new out.new }
{
    let packed = container_writer::write_container(page_size, sizes, bytes, out);
    tell(packed.map(|n| n as u64), value)
}

/// Promises the statement of this crate, so that it cannot be dropped unnoticed.
#[tactic(auto, using(crate::proofs::Statements::single_valued))]
pub fn proved()
    ensures { SingleValued }
{}
