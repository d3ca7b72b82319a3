// The state of a line program, and the line records. A record is the position at which it was emitted, with a length.
ghost use Rattle.std.specs.Prelude.{◌≡◌, ok_or};
ghost use Rattle.line_state.specs.State.{start, offset_of};
ghost use Rattle.line_state.specs.Sum.{line_advanced, end_advanced};

/// What annotations set and advance. The line and the end column may fall below zero.
#[derive(Clone, Copy, Debug, PartialEq, Eq)]
pub struct Position {
    /// The code offset, and the base that it is relative to.
    pub code: u32,
    pub base: u32,
    pub file: u32,
    pub line: i64,
    /// How many lines a record covers.
    pub count: u32,
    /// 1 a statement, 0 an expression. Other kinds are kept as they are given.
    pub kind: u32,
    pub start: u32,
    pub end: i64,
}

/// A line record.
#[derive(Clone, Copy, Debug, PartialEq, Eq)]
pub struct Line {
    pub at: Position,
    /// How many bytes of code the record covers, if that is known yet.
    pub length: Option<u32>,
}

#[derive(Clone, Copy, Debug, PartialEq, Eq)]
pub struct State {
    pub at: Position,
    /// The record that was emitted last. Its length may still be set.
    pub last: Option<Line>,
}

impl State {
    /// Where every program starts.
    pub fn new() -> Self
        ensures { result ≡ start }
    {
        State {
            at: Position {
                code: 0,
                base: 0,
                file: 0,
                line: 0,
                count: 1,
                kind: 1,
                start: 0,
                end: 0,
            },
            last: None,
        }
    }
}

impl Position {
    /// The offset of a record that is emitted here.
    pub fn offset(self) -> u64
        ensures { result ≡ offset_of self }
    {
        u64::from(self.base) + u64::from(self.code)
    }

    /// The position with the line advanced, if that fits 64 bits.
    pub fn advance_line(self, by: i32) -> Option<Self>
        ensures { ok_or result tt ≡ line_advanced self by }
    {
        let line = self.line.checked_add(i64::from(by))?;
        Some(Position { line, ..self })
    }

    /// The position with the end column advanced, if that fits 64 bits.
    pub fn advance_end(self, by: i32) -> Option<Self>
        ensures { ok_or result tt ≡ end_advanced self by }
    {
        let end = self.end.checked_add(i64::from(by))?;
        Some(Position { end, ..self })
    }
}
