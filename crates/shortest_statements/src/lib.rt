// Statements about the forms of numbers: how many bytes were taken, which form is the shortest, and when writing what
// was decoded gives the very bytes again.
//
// specs/Statements.antt: a number. specs/Rewriting.antt: a whole program.
#![tactic(auto)]

ghost use Rattle.shortest_statements.specs.Statements.{Taken, ShortestExactly};
ghost use Rattle.shortest_statements.specs.Rewriting.{Rewriting};

// Promises each statement of this crate, so that none can be dropped unnoticed.
pub fn proved()
    ensures taken { Taken }
    ensures shortest_exactly { ShortestExactly }
    ensures rewriting { Rewriting }
{}
