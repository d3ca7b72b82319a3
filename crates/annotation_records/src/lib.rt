// A record of a list of annotations, as `annotation_writer` takes it: whether it can be written, and as which numbers.
//
// record.rt: a record of the list. range.rt: which records can be written. operands.rt: the numbers of a record, their
// width, and their bytes.
#![tactic(auto)]

mod operands;
mod range;
mod record;

pub use operands::{Numbers, numbers_of};
pub use range::is_writable;
pub use record::{ENTRIES_EACH, Record, record_at};
