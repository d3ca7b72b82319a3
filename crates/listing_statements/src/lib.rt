// What holds of the listing beyond its promises, as statements with their proofs.
//
// specs/Statements.antt: no second answer, numbers in decimal, calls of `list` that make the whole. specs/Lines.antt:
// what a stream's line says, and that an absent stream is not shown as an empty one. specs/Cases.antt: the listing of
// document 01's file F. The one function does nothing: with it the check fails if a proof goes missing.
#![tactic(auto)]

ghost use Rattle.std.specs.Prelude.{ℕ};
ghost use Rattle.parse_buffer.specs.Bytes.{File};
ghost use Rattle.listing_statements.specs.Statements.{Told, SingleValued, Decimal, InParts};
ghost use Rattle.listing_statements.specs.Lines.{LinesTold, AbsentIsNotEmpty};
ghost use Rattle.listing_statements.specs.Cases.{Cases};

/// Each statement of this crate, as a promise that must be proved: none can vanish unnoticed.
#[tactic(auto, using(crate::proofs::Statements::told, crate::proofs::Statements::single_valued, crate::proofs::Decimal::decimal_right, crate::proofs::InParts::in_parts, crate::proofs::Lines::lines_told, crate::proofs::Absent::absent_is_not_empty, crate::proofs::Cases::cases))]
pub fn proved()
    ensures told { Told }
    ensures single_valued { SingleValued }
    ensures decimal { Decimal }
    ensures in_parts { (f : File) (len : ℕ) → InParts f len }
    ensures lines_told { LinesTold }
    ensures absent_is_not_empty { AbsentIsNotEmpty }
    ensures cases { Cases }
{}
