// The part of `ParseBuffer` (`src/common.rs`) that the container uses: little-endian numbers, and `take`.
//
// A reader here is the lent bytes and a place. `word_at` is total: a byte past the end counts as 0, as `byte_at` of
// specs/Bytes.antt has it, so that what is read never depends on who checked a length first.
#![tactic(auto)]

ghost use Rattle.std.specs.Prelude.{◌≡◌, ◌+◌, ◌≤◌, leb, length};
ghost use Rattle.parse_buffer.specs.Bytes.{byte_at, word};
ghost use Rattle.parse_buffer.specs.Parse.{Parsing, Taking, PartAt};

/// A number that was read, and the place after it.
#[derive(Clone, Copy, Debug, PartialEq, Eq)]
pub struct Word {
    pub value: u32,
    pub next: usize,
}

/// Refusal 7: a number reaches past the end.
#[derive(Clone, Copy, Debug, PartialEq, Eq)]
pub struct ShortData;

/// The number at a place, or refusal 7.
#[tactic(auto, unfolding(crate::specs::Parse::parse_u32, outcome::specs::Outcome::raise))]
pub fn parse_u32(bytes: &[u8], at: usize) -> Result<Word, ShortData>
    ensures { Parsing bytes.now at result }
{
    if !can_take(bytes, at, 4) {
        return Err(ShortData);
    }
    Ok(Word {
        value: word_at(bytes, at),
        next: at + 4,
    })
}

/// The n bytes from a place on: the very part of the lent bytes, with no copy. If they are not there, an empty part.
pub fn take(bytes: &[u8], at: usize, n: usize) -> &[u8]
    ensures { Taking bytes.entry at n result }
{
    part_at(bytes, at, n).unwrap_or(&bytes[0..0])
}

/// The same, but None if they are not there.
pub fn part_at(bytes: &[u8], at: usize, n: usize) -> Option<&[u8]>
    ensures { PartAt bytes.entry at n result }
{
    if !can_take(bytes, at, n) {
        return None;
    }
    Some(&bytes[at..at + n])
}

/// Whether n bytes are there from a place on: `take` returns them, and not an empty part in their stead.
pub fn can_take(bytes: &[u8], at: usize, n: usize) -> bool
    ensures { result ≡ leb (at + n) (length bytes.now) }
{
    at <= bytes.len() && n <= bytes.len() - at
}

/// The little-endian number at a place.
pub fn word_at(bytes: &[u8], at: usize) -> u32
    ensures { result ≡ word (byte_at bytes.now) at }
{
    if can_take(bytes, at, 4) {
        word_in(bytes, at)
    } else {
        cut_word(bytes, at)
    }
}

/// The same if all four bytes are there. Indexed in place, with no test between, they are one load.
#[tactic(auto, unfolding(crate::specs::Bytes::word))]
pub fn word_in(bytes: &[u8], at: usize) -> u32
    requires { at + 4 ≤ length bytes.now }
    ensures { result ≡ word (byte_at bytes.now) at }
{
    u32::from_le_bytes([bytes[at], bytes[at + 1], bytes[at + 2], bytes[at + 3]])
}

// The same byte by byte, for a number that may reach past the end.
#[tactic(auto, unfolding(crate::specs::Bytes::word))]
fn cut_word(bytes: &[u8], at: usize) -> u32
    ensures { result ≡ word (byte_at bytes.now) at }
{
    if bytes.len() <= at {
        return 0;
    }
    u32::from_le_bytes([
        byte(bytes, at),
        byte(bytes, at + 1),
        byte(bytes, at + 2),
        byte(bytes, at + 3),
    ])
}

fn byte(bytes: &[u8], at: usize) -> u8
    ensures { result ≡ byte_at bytes.now at }
{
    bytes.get(at).copied().unwrap_or(0)
}
