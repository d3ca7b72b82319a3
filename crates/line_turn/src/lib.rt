// What one annotation does to the state of a line program (docs/LINES.md).
#![tactic(auto)]

ghost use Rattle.std.specs.Prelude.{◌≡◌, ok_or};
ghost use Rattle.annotations.specs.Annotation.{annotation_of};
ghost use Rattle.line_turn.specs.Turn.{turning};

use annotations::decode_signed_operand;
use line_changes::{After, emit, on, set_length};
use line_state::{Position, State};

/// Takes one annotation, by its opcode and its operands. Only 12 has the second one, w. None is a bad line.
#[tactic(auto, unfolding(crate::specs::Turn::turning, annotations::specs::Annotation::annotation_of, line_changes::specs::Change::advancing_line, line_changes::specs::Change::advancing_end, line_changes::specs::Change::emission_on_line, outcome::specs::Outcome::and_then))]
pub fn turn(state: State, opcode: u32, v: u32, w: u32) -> Option<After>
    ensures { ok_or result tt ≡ turning state (annotation_of opcode v w) }
{
    let State { at, last } = state;
    match opcode {
        // CodeOffset
        1 => Some(on(Position { code: v, ..at }, last)),
        // ChangeCodeOffsetBase
        2 => Some(on(Position { base: v, ..at }, last)),
        // ChangeCodeOffset
        3 => emit(last, at, v, None),
        // ChangeCodeLength
        4 => set_length(at, last, v),
        // ChangeFile
        5 => Some(on(Position { file: v, ..at }, last)),
        // ChangeLineOffset
        6 => Some(on(at.advance_line(decode_signed_operand(v))?, last)),
        // ChangeLineEndDelta
        7 => Some(on(Position { count: v, ..at }, last)),
        // ChangeRangeKind
        8 => Some(on(Position { kind: v, ..at }, last)),
        // ChangeColumnStart
        9 => Some(on(Position { start: v, ..at }, last)),
        // ChangeColumnEndDelta
        10 => Some(on(at.advance_end(decode_signed_operand(v))?, last)),
        // ChangeCodeOffsetAndLineOffset
        11 => emit(
            last,
            at.advance_line(decode_signed_operand(v / 16))?,
            v % 16,
            None,
        ),
        // ChangeCodeLengthAndCodeOffset
        12 => emit(last, at, w, Some(v)),
        // ChangeColumnEnd
        13 => Some(on(
            Position {
                end: i64::from(v),
                ..at
            },
            last,
        )),
        // The decoder answers no other.
        _ => None,
    }
}
