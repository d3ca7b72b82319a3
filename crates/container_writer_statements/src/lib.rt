// Statements about writing a container beyond its promise, with their proofs.
//
// specs/Accepted.antt: what they are about. specs/Stored.antt: no second answer, and what is in the store.
// specs/ReadBack.antt: reading the file gives back what was written. specs/Roles.antt: every page has one role.
// specs/Contents.antt: the header's words, the free map, zeros, and which bytes depend on the input's.
// specs/Exactly.antt: when each refusal comes.
#![tactic(auto)]

ghost use Rattle.container_writer_statements.specs.Stored.{Told, SingleValued, Stored};
ghost use Rattle.container_writer_statements.specs.ReadBack.{ReadBack};
ghost use Rattle.container_writer_statements.specs.Roles.{OneRole};
ghost use Rattle.container_writer_statements.specs.Contents.{HeaderWords, FreeMap, Zeros, OwnBytes};
ghost use Rattle.container_writer_statements.specs.Exactly.{RefusedExactly};

// Promises each statement of this crate, so that none can be dropped unnoticed.
#[tactic(auto, using(crate::proofs::Statements::statements))]
pub fn proved()
    ensures told { Told }
    ensures single_valued { SingleValued }
    ensures stored { Stored }
    ensures read_back { ReadBack }
    ensures one_role { OneRole }
    ensures header_words { HeaderWords }
    ensures free_map { FreeMap }
    ensures zeros { Zeros }
    ensures own_bytes { OwnBytes }
    ensures refused_exactly { RefusedExactly }
{}
