// The line program's state, and the line records (docs/LINES.md).
#![tactic(auto, unfolding(crate::specs::Sum::summed, outcome::specs::Outcome::and_then, outcome::specs::Outcome::and_next, outcome::specs::Outcome::require))]

mod state;

pub use state::{Line, Position, State};
