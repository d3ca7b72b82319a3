// A statement about what crosses to Rust and C, beyond the promises: how a caller tells answers apart.
#![tactic(auto)]

ghost use Rattle.crossing_statements.specs.Statements.{Apart};

/// Promises it, so that it cannot be dropped unnoticed.
#[tactic(auto, using(crate::proofs::Statements::apart))]
pub fn proved()
    ensures { Apart }
{}
