// Statements about `needed_to_map`, with their proofs. The one function does nothing.
//
// specs/Statements.antt: no second answer; the slices name the part's bytes; the refusals are those of steps 1 to 5.
// specs/Isolation.antt: demand 3. specs/Prefix.antt: mapping and the stream count need no more of the file than the
// parts, and not its length. specs/Cases.antt: file F.

#![tactic(auto)]

ghost use Rattle.std.specs.Prelude.{ℕ, List};
ghost use Rattle.parse_buffer.specs.Bytes.{File};
ghost use Rattle.needed.specs.declared.Stage.{Stage};
ghost use Rattle.needed_statements.specs.Statements.{SingleValued, PartExactly, Refusals};
ghost use Rattle.needed_statements.specs.Isolation.{Isolation};
ghost use Rattle.needed_statements.specs.Prefix.{Holds, Prefix, Covers, LaidOut};
ghost use Rattle.needed_statements.specs.Cases.{Cases};

// Each statement of this crate, as a promise that must be proved: none can vanish unnoticed.
pub fn proved()
    ensures single_valued { SingleValued }
    ensures part_exactly { (f : File) (len : ℕ) (stage : Stage) → PartExactly f len stage }
    ensures refusals { (f : File) (len : ℕ) → Refusals f len }
    ensures isolation { (f g : File) (len : ℕ) (stage : Stage) (offsets sizes : List ℕ) →
        Isolation f g len stage offsets sizes }
    ensures prefix { (f g : File) (len len' : ℕ) (long : Holds f len) (long' : Holds g len') → Prefix f g len len' }
    ensures covers { (f : File) (len k : ℕ) → Covers f len k }
    ensures laid_out { (f g : File) (len len' : ℕ) (long : Holds f len) (long' : Holds g len') → LaidOut f g len len' }
    ensures cases { Cases }
{}
