// Statements about writing annotations beyond its promise, with their proofs.
//
// specs/Statements.antt: no second answer, the round trip, the shortest form, bytes that follow and come before.
// specs/Exactly.antt: when each refusal comes. specs/Cases.antt: lists and their bytes.
#![tactic(auto)]

ghost use Rattle.annotation_writer_statements.specs.Statements.{Told, SingleValued, RoundTrip, SameEntries};
ghost use Rattle.annotation_writer_statements.specs.Statements.{Shortest, MoreBytes, FromAPlace};
ghost use Rattle.annotation_writer_statements.specs.Exactly.{CarriesExactly, RefusedExactly};
ghost use Rattle.annotation_writer_statements.specs.Cases.{Cases};

// Promises each statement of this crate, so that none can be dropped unnoticed.
pub fn proved()
    ensures told { Told }
    ensures single_valued { SingleValued }
    ensures round_trip { RoundTrip }
    ensures same_entries { SameEntries }
    ensures shortest { Shortest }
    ensures more_bytes { MoreBytes }
    ensures from_a_place { FromAPlace }
    ensures carries_exactly { CarriesExactly }
    ensures refused_exactly { RefusedExactly }
    ensures cases { Cases }
{}
