// What holds of the container's operations beyond their promises, as statements with their proofs.
//
// specs/Statements.antt: no second answer, the byte, the slices, the two forms of a mapping, need(b), each stream's own
// entries. specs/Cases.antt: the (P) cases on document 01's file F.
#![tactic(auto)]

ghost use Rattle.container_statements.specs.Cases.{Cases};
ghost use Rattle.container_statements.specs.Statements.{Told, SingleValued, TheByte, TheSlices, BothForms, PagesNeeded, Own};

// Each statement of this crate, as a promise that must be proved: none can vanish unnoticed.
pub fn proved()
    ensures told { Told }
    ensures single_valued { SingleValued }
    ensures the_byte { TheByte }
    ensures the_slices { TheSlices }
    ensures both_forms { BothForms }
    ensures pages_needed { PagesNeeded }
    ensures own { Own }
    ensures cases { Cases }
{}
