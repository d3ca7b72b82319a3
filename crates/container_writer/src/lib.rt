// Writes a container: a whole file from a page size, a list of sizes and the streams' bytes, in file order. Reading it
// gives each stream back.
//
// Crate `container_layout` below says where each part lies, `container_pages` has the pages that are not copied, and
// `container_parts` the data pages of one stream, and those of the directory or the location list. file.rt: the file,
// part after part. write.rt: the operation.
#![tactic(auto)]

mod file;
mod write;

pub use container_layout::Refusal;
pub use write::write_container;
