// Statements about binary annotations beyond the promises, with their proofs.
//
// specs/Statements.antt: no second answer, the signed reading, numbers, steps and decoding all.
// specs/Cases.antt: the (P) cases.
#![tactic(auto)]

ghost use Rattle.annotations_statements.specs.Cases.{Cases};
ghost use Rattle.annotations_statements.specs.Statements.{Told, SingleValued, SignedReading, AtMostHalf};
ghost use Rattle.annotations_statements.specs.Statements.{NumberExactly, Agreement, DecodeExactly};

// Promises each statement of this crate, so that none can be dropped unnoticed.
#[tactic(auto, using(crate::proofs::Told::told, crate::proofs::Statements::single_valued, crate::proofs::Statements::signed_reading, crate::proofs::Statements::at_most_half, crate::proofs::Statements::number_exactly, crate::proofs::Statements::agreement, crate::proofs::Statements::decode_exactly, crate::proofs::Cases::cases))]
pub fn proved()
    ensures told { Told }
    ensures single_valued { SingleValued }
    ensures signed_reading { SignedReading }
    ensures at_most_half { AtMostHalf }
    ensures number_exactly { NumberExactly }
    ensures agreement { Agreement }
    ensures decode_exactly { DecodeExactly }
    ensures cases { Cases }
{}
