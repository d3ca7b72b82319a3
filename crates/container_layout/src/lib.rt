// Where the parts of a container lie, before it is written: the header's page, free-map pages, and the data pages of
// the streams, of the directory and of its location list.
//
// refusal.rt: why a container is not written. place.rt: the numbers of the data pages. layout.rt: how much there is of
// each part, and whether the format can hold it. planned.rt: a layout with the sizes that it is of. Crate
// `container_writer` above writes the file.
#![tactic(auto)]

mod layout;
mod place;
mod planned;
mod refusal;

pub use layout::{Layout, plan, present_bytes};
pub use place::{data_page, pages_to_map};
pub use planned::Planned;
pub use refusal::Refusal;
