// Paged objects: byte i of each stands in the file at page (i / P) * P + i % P. The location list is paged by the
// header's entries, the directory by the location list's words, a stream by its own entries in the directory.
//
// refusal.rt: the container's refusals, and page and stream numbers. size.rt: all arithmetic with the page size.
// pages.rt: where the words of the location list and of the directory stand, and which page numbers pass. Crate `runs`
// above reads the page numbers.
#![tactic(auto)]

mod pages;
mod refusal;
mod size;

pub use pages::{FIRST_ENTRY, Pages, directory_place, directory_word, list_place, page_fits};
pub use refusal::{PageNumber, Refusal, StreamNumber};
pub use size::{pages_needed_to_store, span_of, words_left};
