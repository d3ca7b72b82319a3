// Binary annotations (`src/symbol/annotations.rs`): the line program of an inlined function (`S_INLINESITE`).
//
// annotation.rt: the thirteen annotations. operands.rt: an opcode and its operands as they are read. step.rt: one step
// from a place. Crate `numbers` below reads their numbers; crate `decode` above takes all steps, into a lent store.
#![tactic(auto)]

mod annotation;
mod operands;
mod step;

pub use annotation::{BinaryAnnotation, FileIndex, Triple, decode_signed_operand};
pub use operands::{Operands, operands_at};
pub use step::{Annotated, Step, step_at};
