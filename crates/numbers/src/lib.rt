// The compressed numbers that binary annotations are made of (`CVUncompressData`), and the refusals of annotations.
//
// refusal.rt: why a number or a step is refused. form.rt: how many bytes a number takes, its value, and whether fewer
// would do. number.rt: the number at a place.
#![tactic(auto)]

mod form;
mod number;
mod refusal;

pub use form::{is_shortest, short_width, value_at, why_at, width_at};
pub use number::{Number, uncompress_next};
pub use refusal::{PlacedRefusal, Refusal};
