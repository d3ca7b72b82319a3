// The pages of a container that are not copied, written into a lent store where they lie in the file.
//
// fill.rt: zeros. numbers.rt: pages of numbers, which are the header's, the directory's and the location list's.
// maps.rt: the free-map pages, and where the data pages behind them begin.
#![tactic(auto)]

mod fill;
mod maps;
mod numbers;

pub use fill::put_zeros;
pub use maps::begin_page;
pub use numbers::{DirectoryNumbers, HeaderNumbers, LocationNumbers, Numbers, put_numbers};
