// Demand 3, streams do not leak into each other, as statements with their proofs. The one function does nothing.
//
// specs/Listed.antt: the bytes that stream k depends on. specs/Isolation.antt: two files of equal length that agree on
// them give the same answers and stores. NamedExactly.antt, Stages.antt, InFile.antt and Tight.antt there: what is not
// on the list. Corollaries.antt: what a reader wants of it.

#![tactic(auto)]

ghost use Rattle.std.specs.Prelude.{ℕ, Option};
ghost use Rattle.parse_buffer.specs.Bytes.{File};
ghost use Rattle.isolation.specs.Isolation.{Isolation};
ghost use Rattle.isolation.specs.Boundary.{Boundary};
ghost use Rattle.isolation.specs.Corollaries.{Corollaries};
ghost use Rattle.isolation.specs.NamedExactly.{NamedExactly};
ghost use Rattle.isolation.specs.Stages.{Stages};
ghost use Rattle.isolation.specs.InFile.{InFile};
ghost use Rattle.isolation.specs.Tight.{Tight, NotTooMuch};
ghost use Rattle.isolation.specs.Cases.{Cases};

// Each statement of this crate, as a promise that must be proved: none can vanish unnoticed.
pub fn proved()
    ensures isolation { (f g : File) (len : ℕ) → Isolation f g len }
    ensures boundary { (f g : File) (len : ℕ) → Boundary f g len }
    ensures corollaries { (f g : File) (len k : ℕ) (limit : Option ℕ) → Corollaries f g len k limit }
    ensures named_exactly { (f : File) (len k : ℕ) (limit : Option ℕ) → NamedExactly f len k limit }
    ensures stages { (f : File) (len k : ℕ) (limit : Option ℕ) (i : ℕ) → Stages f len k limit i }
    ensures in_file { (f : File) (len k : ℕ) (limit : Option ℕ) → InFile f len k limit }
    ensures tight { Tight }
    ensures not_too_much { NotTooMuch }
    ensures cases { Cases }
{}
