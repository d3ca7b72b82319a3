// Where a listing stands. The count of pages before a line's stream is carried from line to line: adding up the earlier
// sizes anew for each line would take the square of their number.
ghost use Rattle.std.specs.Prelude.{◌≡◌, ◌↔◌, ◌+◌, ◌-◌, ◌≤◌, length, IsTrue};
ghost use Rattle.parse_buffer.specs.Bytes.{byte_at};
ghost use Rattle.stream.specs.Inner.{Before};
ghost use Rattle.store.specs.Putting.{Putting};
ghost use Rattle.listing_whole.specs.Inner.{Whole};
ghost use Rattle.listing_line.specs.Line.{line_at};

use crate::{show, write_shown};
use listing_text::write_head;
use listing_whole::Listable;
use paged::{StreamNumber, directory_word};
use stream::{pages_before, pages_of};

/// A line of a file that is listed, or the place after the last: line 0 is the head, line 1 + k is stream k's.
#[derive(Clone, Copy)]
pub struct Cursor<'a> {
    file: &'a [u8],
    whole: Listable,
    line: usize,
    // How many page numbers the streams before the line's stream have; for the head, 0.
    before: usize,
    ghost is_whole: { Whole (byte_at file.now) (length file.now) whole },
    ghost line_bound: { line ≤ 1 + whole.count },
    ghost pages_before: { Before (byte_at file.now) whole.header.pagesize (line - 1) before },
}

impl<'a> Cursor<'a> {
    /// The cursor at a line.
    pub fn at(file: &'a [u8], whole: Listable, line: usize) -> Cursor<'a>
        requires is_whole { Whole (byte_at file.now) (length file.now) whole }
        requires line_bound { line ≤ 1 + whole.count }
        ensures same_file { result.file ≡ file.entry }
        ensures same_whole { result.whole ≡ whole }
        ensures at_line { result.line ≡ line }
    {
        let before = if line == 0 {
            0
        } else {
            pages_before(file, whole.header.pagesize as usize, line - 1)
        };
        Cursor {
            file,
            whole,
            line,
            before,
        }
    }

    /// The number of the line.
    pub fn line(&self) -> usize
        ensures { result ≡ self.now.line }
    {
        self.line
    }

    /// How many streams the file has.
    pub fn count(&self) -> u32
        ensures { result ≡ self.now.whole.count }
    {
        self.whole.count
    }

    /// Whether the file has the line.
    pub fn has_line(&self) -> bool
        ensures { IsTrue result ↔ (self.now.line ≤ self.now.whole.count) }
    {
        self.line <= self.whole.count as usize
    }

    /// Writes the line to the front of `text`, and returns how many bytes it has.
    #[tactic(auto, using(crate::proofs::LineLaws::line_cases))]
    pub fn write_line(&self, text: &mut [u8]) -> usize
        requires line_le_count { self.now.line ≤ self.now.whole.count }
        requires room { 80 ≤ length text.old }
        ensures { Putting (line_at (byte_at self.now.file.now) (length self.now.file.now) self.now.whole.count self.now.line)
            text.old 0 text.new result }
    {
        if self.line == 0 {
            return write_head(text, self.whole.count);
        }
        let k = (self.line - 1) as u32;
        let shown = show(self.file, self.whole, StreamNumber(k), self.before);
        write_shown(text, k, shown)
    }

    /// Moves to the next line.
    pub fn advance(&mut self)
        requires line_le_count { self.old.line ≤ self.old.whole.count }
        ensures same_file { self.new.file ≡ self.old.file }
        ensures same_whole { self.new.whole ≡ self.old.whole }
        ensures next_line { self.new.line ≡ self.old.line + 1 }
    {
        self.before += self.pages();
        self.line += 1;
    }

    // How many page numbers the line's stream has; the head has none.
    fn pages(&self) -> usize
        requires line_le_count { self.now.line ≤ self.now.whole.count }
        ensures { Before (byte_at self.now.file.now) self.now.whole.header.pagesize
            (self.now.line + 1 - 1) (self.now.before + result) }
    {
        if self.line == 0 {
            return 0;
        }
        let size = self.whole.header.pagesize as usize;
        pages_of(size, directory_word(self.file, size, self.line))
    }
}
