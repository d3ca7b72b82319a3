// The tally of replayed records, and how a program reports it.
use std::io::Write;

// Whether there is more to read.
#[derive(Clone, Copy, PartialEq)]
pub(crate) enum Next {
    Record,
    Ended,
    // A record is cut short, or its header exceeds the limits.
    Bad,
}

#[derive(Clone, Copy)]
pub(crate) struct Tally {
    pub next: Next,
    pub records: u64,
    pub questions: u64,
    pub differ: u64,
    // The first record that differs.
    pub first: Option<u64>,
}

impl Tally {
    pub fn new() -> Self {
        Tally {
            next: Next::Record,
            records: 0,
            questions: 0,
            differ: 0,
            first: None,
        }
    }

    pub fn stopped(self, next: Next) -> Self {
        Tally { next, ..self }
    }

    // The tally after a record. The counts are far below 2^64; wrapping sums need no proof of that.
    pub fn counted(self, questions: u64, agrees: bool) -> Self {
        let asked = Tally {
            records: self.records.wrapping_add(1),
            questions: self.questions.wrapping_add(questions),
            ..self
        };
        if agrees {
            return asked;
        }
        Tally {
            differ: self.differ.wrapping_add(1),
            first: self.first.or(Some(self.records)),
            ..asked
        }
    }

    // A write that fails is not told, and the later ones are still tried.
    pub fn report<W: Write>(self, writer: &mut W) {
        if self.next == Next::Bad {
            let _ = writer.write_all(b"bad list\n");
            return;
        }
        line(writer, b"questions ", self.questions);
        line(writer, b"differ ", self.differ);
        if let Some(first) = self.first {
            line(writer, b"first ", first);
        }
    }
}

fn line<W: Write>(writer: &mut W, name: &[u8], n: u64) {
    let _ = writer.write_all(name);
    let _ = write!(writer, "{n}");
    let _ = writer.write_all(b"\n");
}
