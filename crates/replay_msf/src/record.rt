// A record: a header of 48 bytes, its numbers little-endian (`tests/differential/README.md` has the format), and the
// runs that make a file.
use crate::files;
use listing::Place;
use msf::StreamNumber;
use replay::{Answers, Digest, Record, half_at, long_at, word_at};
use replay_questions::answer;
use std::ops::RangeInclusive;

pub const HEADER: usize = 48;

pub const LONGEST_FILE: usize = 131072;

// The runs of a file may be somewhat longer than the file.
pub const LONGEST_BODY: usize = 132096;

pub const MOST_BYTES: usize = 131072;

const MOST_ENTRIES: usize = 1024;

#[derive(Clone, Copy)]
pub struct Question {
    // How many bytes follow.
    body: usize,
    // A base file, and no question.
    is_base: bool,
    // Of the file.
    length: usize,
    sweep: Option<Sweep>,
    asked: replay_questions::Question,
}

// The question is asked with each value from the first to the last in the byte at a place.
#[derive(Clone, Copy)]
struct Sweep {
    at: usize,
    first: u8,
    last: u8,
}

#[derive(Drop)]
pub struct Stores {
    // The file that the records after it edit.
    pub base: [u8; LONGEST_FILE],
    pub file: [u8; LONGEST_FILE],
    // The output.
    pub bytes: [u8; MOST_BYTES],
}

impl Record<HEADER> for Question {
    type Stores = Stores;

    fn parse(h: &[u8; HEADER]) -> Option<Question> {
        let q = Question {
            body: word_at(h, 0) as usize,
            is_base: h[4] == 0,
            length: word_at(h, 8) as usize,
            sweep: parse_sweep(h),
            asked: parse_asked(h),
        };
        (well_formed(h) && q.is_within()).then_some(q)
    }

    fn length(&self) -> usize {
        self.body
    }

    fn ask(&self, body: &mut [u8], stores: &mut Stores) -> Option<Answers> {
        if self.is_base {
            files::make(&mut stores.base, body)?;
            return Some(Answers::Kept);
        }
        let file = stores.file.get_mut(..self.length)?;
        files::edit(file, &stores.base, body)?;
        let bytes = &mut stores.bytes;
        Some(match self.sweep {
            None => Answers::Asked(1, answer(Digest::new(), self.asked, file, bytes)),
            Some(s) => Answers::Asked(s.values(), self.swept(s.at, s.first..=s.last, file, bytes)?),
        })
    }
}

impl Question {
    // A list of ours keeps to the limits, so one that does not is damaged.
    fn is_within(&self) -> bool {
        let q = self.asked;
        self.length <= LONGEST_FILE
            && self.sweep.is_none_or(|s| s.at < self.length)
            && q.offsets <= MOST_ENTRIES
            && q.sizes <= MOST_ENTRIES
            && q.bytes <= MOST_BYTES
    }

    // Asked with each of these values in the byte at a place, all in one digest.
    fn swept(
        &self,
        at: usize,
        values: RangeInclusive<u8>,
        file: &mut [u8],
        bytes: &mut [u8],
    ) -> Option<Digest> {
        let mut digest = Digest::new();
        for value in values {
            *file.get_mut(at)? = value;
            digest = answer(digest, self.asked, file, bytes);
        }
        Some(digest)
    }
}

impl Sweep {
    fn values(self) -> u64 {
        u64::from(self.last.saturating_sub(self.first)) + 1
    }
}

// Each byte that says yes or no is 0 or 1, that of a place is one of its three, and those that say nothing are 0. The
// first value is not above the last.
fn well_formed(h: &[u8; HEADER]) -> bool {
    h[4] < 2 && h[5] < 128 && h[6] < 2 && h[7] < 2 && h[16] <= h[17] && h[22] < 3 && h[23] == 0
}

fn parse_sweep(h: &[u8; HEADER]) -> Option<Sweep> {
    (h[7] == 1).then_some(Sweep {
        at: word_at(h, 12) as usize,
        first: h[16],
        last: h[17],
    })
}

fn parse_asked(h: &[u8; HEADER]) -> replay_questions::Question {
    let asked = |bit: u8| h[5] & bit != 0;
    let stream = StreamNumber(word_at(h, 28));
    replay_questions::Question {
        open: asked(1),
        count: asked(2),
        map: asked(4),
        extract: asked(8),
        list: asked(16),
        location_list: asked(32),
        directory: asked(64),
        stream,
        limit: (h[6] == 1).then_some(long_at(h, 32) as usize),
        offsets: half_at(h, 18),
        sizes: half_at(h, 20),
        bytes: word_at(h, 24) as usize,
        from: parse_place(h[22], stream),
    }
}

fn parse_place(place: u8, stream: StreamNumber) -> Place {
    match place {
        0 => Place::Head,
        1 => Place::Stream(stream),
        _ => Place::End,
    }
}
