// Writes binary annotations: a list of records, in the layout of `decode`'s store, as bytes with every number in its
// shortest form. Decoding them gives the list again.
//
// refusal.rt: why a list is refused. write.rt: the operation. Crate `annotation_records` below judges and writes one
// record.
#![tactic(auto)]

mod refusal;
mod write;

pub use refusal::Refusal;
pub use write::write_annotations;
