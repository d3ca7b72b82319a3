// Statements about line programs beyond the promise of `run_lines`, with their proofs.
//
// specs/Runs.antt: annotations run one after the other, and when each answer comes. specs/Statements.antt: no second
// answer, how many records there are, what their lengths are, what the answer depends on, what every state satisfies,
// and the ends of the range. specs/Cases.antt: programs and their records.
#![tactic(auto)]

ghost use Rattle.lines_statements.specs.Runs.{RunExactly};
ghost use Rattle.lines_statements.specs.Statements.{Told, SingleValued, AsMany, Lengths, OnlyThePromise};
ghost use Rattle.lines_statements.specs.Statements.{Bounded, Ends};
ghost use Rattle.lines_statements.specs.Cases.{Cases};

// Promises each statement of this crate, so that none can be dropped unnoticed.
pub fn proved()
    ensures told { Told }
    ensures single_valued { SingleValued }
    ensures run_exactly { RunExactly }
    ensures as_many { AsMany }
    ensures lengths { Lengths }
    ensures only_the_promise { OnlyThePromise }
    ensures bounded { Bounded }
    ensures ends { Ends }
    ensures cases { Cases }
{}
