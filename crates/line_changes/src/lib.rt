// The changes of a line program's state that annotations are made of (docs/LINES.md). A record is handed out when the
// next one is emitted: until then its length may be set.
#![tactic(auto, unfolding(crate::specs::Change::closed, crate::specs::Change::settled, crate::specs::Change::emission, crate::specs::Change::lengthening, crate::specs::Inner::closing, outcome::specs::Outcome::and_then, outcome::specs::Outcome::and_next, outcome::specs::Outcome::require))]

ghost use Rattle.std.specs.Prelude.{◌≡◌, ◌+◌, Ok, None, ok_or};
ghost use Rattle.line_state.specs.State.{with_code};
ghost use Rattle.line_changes.specs.Change.{after, settled, emission, lengthening};
ghost use Rattle.line_changes.specs.Inner.{closing};

use line_state::{Line, Position, State};

/// The next state, and the record that was closed, if one was.
#[derive(Clone, Copy, Debug, PartialEq, Eq)]
pub struct After {
    pub state: State,
    pub closed: Option<Line>,
}

/// Goes on from a position. No record is closed.
pub fn on(at: Position, last: Option<Line>) -> After
    ensures { Ok result ≡ after at last None }
{
    After {
        state: State { at, last },
        closed: None,
    }
}

/// Sets the length of the record that was emitted last. The code offset stays. Before any emission that is a bad line.
pub fn set_length(at: Position, last: Option<Line>, length: u32) -> Option<After>
    ensures { ok_or result tt ≡ lengthening at last length }
{
    let line = last?;
    Some(on(
        at,
        Some(Line {
            length: Some(length),
            ..line
        }),
    ))
}

/// Advances the code offset and emits a record there, with a length of its own or none. It is a bad line if an offset
/// leaves 32 bits, or falls where a length is due.
pub fn emit(last: Option<Line>, at: Position, by: u32, own: Option<u32>) -> Option<After>
    ensures { ok_or result tt ≡ emission last (with_code at (at.code + by)) own }
{
    let code = at.code.checked_add(by)?;
    let offset = at.base.checked_add(code)?;
    let at = Position { code, ..at };
    let line = Line { at, length: own };
    let state = State {
        at,
        last: Some(line),
    };
    close(last, state, offset)
}

// Closes the last record where the next one begins, at an offset.
fn close(last: Option<Line>, state: State, offset: u32) -> Option<After>
    ensures { ok_or result tt ≡ closing last state offset }
{
    let Some(line) = last else {
        return Some(After {
            state,
            closed: None,
        });
    };
    let length = Some(length_to(line, offset)?);
    Some(After {
        state,
        closed: Some(Line { length, ..line }),
    })
}

// The length of a record that is closed at an offset. If it has none yet, that is the difference of the offsets.
fn length_to(line: Line, offset: u32) -> Option<u32>
    ensures { ok_or result tt ≡ settled line.at line.length offset }
{
    match line.length {
        Some(length) => Some(length),
        None => {
            let between = u64::from(offset).checked_sub(line.at.offset())?;
            Some(between as u32)
        }
    }
}
