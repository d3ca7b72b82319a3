// The three numbers that say an annotation: opcode, first, second or 0. They are made at once, by the kind of
// operand, with no variant in between. Each reading of an operand is computed and one is picked: the compiler makes
// no branch of that, and no processor can foresee the opcode.
#![tactic(auto)]

ghost use Rattle.std.specs.Prelude.{◌≡◌, cond};
ghost use Rattle.annotations.specs.Signed.{signed_of};
ghost use Rattle.annotations.specs.Annotation.{annotation_of};
ghost use Rattle.triples.specs.Inner.{first_of, second_of};

use annotations::{Triple, decode_signed_operand};

/// The numbers of an opcode and its operands. Only 12 has the second one, w.
#[tactic(auto, unfolding(annotations::specs::Annotation::annotation_of))]
pub fn triple_of(opcode: u32, v: u32, w: u32) -> Triple
    ensures { result ≡ annotation_of opcode v w }
{
    Triple {
        opcode,
        first: first_of(opcode, v),
        second: second_of(opcode, v, w),
    }
}

// 6 and 10 are signed, and 11 has its low four bits here.
fn first_of(opcode: u32, v: u32) -> i64
    ensures { result ≡ first_of opcode v }
{
    let signed = signed_of(v);
    let unsigned = pick(opcode == 11, i64::from(v % 16), i64::from(v));
    let not_six = pick(opcode == 10, signed, unsigned);
    pick(opcode == 6, signed, not_six)
}

// 11 has the rest of its operand here, which is signed, and 12 its second operand.
fn second_of(opcode: u32, v: u32, w: u32) -> i64
    ensures { result ≡ second_of opcode v w }
{
    let unsigned = pick(opcode == 12, i64::from(w), 0);
    pick(opcode == 11, signed_of(v / 16), unsigned)
}

// One of two numbers. Both are there already, so no branch is needed.
fn pick(test: bool, yes: i64, no: i64) -> i64
    ensures { result ≡ cond test yes no }
{
    if test { yes } else { no }
}

// The signed reading of an operand, as an entry of the store.
fn signed_of(v: u32) -> i64
    ensures { result ≡ signed_of v }
{
    i64::from(decode_signed_operand(v))
}
