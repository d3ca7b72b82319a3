// Runs a line program: from annotation bytes to line records (docs/LINES.md). It stands on what the decoder promises.
//
// refusal.rt: why a program is refused. run.rt: the two passes over the annotations.
#![tactic(auto)]

mod refusal;
mod run;

pub use line_entries::ENTRIES_EACH;
pub use refusal::Refusal;
pub use run::run_lines;
