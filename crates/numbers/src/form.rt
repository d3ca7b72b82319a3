// The three forms of a compressed number: one, two or four bytes, by the first byte. How many bytes a number takes, its
// value, whether fewer bytes would do, and why there is none, each on its own: an answer that holds them all would go
// through memory.
ghost use Rattle.std.specs.Prelude.{◌≡◌, ◌+◌, ◌*◌, ◌%◌, ◌^◌, ◌<◌, length, Some, None};
ghost use Rattle.numbers.specs.Number.{short_width, is_shortest};
ghost use Rattle.numbers.specs.Inner.{Byte, Width, Value, Why};

use crate::refusal::{PlacedRefusal, Refusal};

/// How many bytes the number at `at` takes, if there is one.
#[tactic(auto, unfolding(crate::specs::Inner::width_of, crate::specs::Number::number_at))]
#[inline(always)]
pub fn width_at(bytes: &[u8], at: usize) -> Option<usize>
    ensures { Width bytes.now at result }
{
    let n = bytes.len();
    if n <= at {
        return None;
    }
    let left = n - at;
    let b1 = byte_at(bytes, at);
    if b1 < 0x80 {
        Some(1)
    } else if b1 < 0xc0 {
        if left < 2 { None } else { Some(2) }
    } else if left < 4 {
        None
    } else if b1 < 0xe0 {
        Some(4)
    } else {
        None
    }
}

/// The value of the number at `at`, which takes `width` bytes.
#[tactic(auto, using(crate::proofs::FormLaws::value_cases))]
#[inline(always)]
pub fn value_at(bytes: &[u8], at: usize, width: usize) -> u32
    requires { Width bytes.now at (Some width) }
    ensures { Value bytes.now at width result }
{
    let b1 = byte_at(bytes, at);
    if width == 1 {
        return b1;
    }
    let b2 = byte_at(bytes, at + 1);
    if width == 2 {
        return two_bytes(b1, b2);
    }
    let b3 = byte_at(bytes, at + 2);
    let b4 = byte_at(bytes, at + 3);
    four_bytes(b1, b2, b3, b4)
}

/// Whether the form of `width` bytes is the shortest that a value has.
pub fn is_shortest(value: u32, width: usize) -> bool
    ensures { result ≡ is_shortest value width }
{
    width == short_width(value)
}

/// How many bytes the shortest form of a value takes.
#[tactic(auto, unfolding(crate::specs::Number::short_width))]
pub fn short_width(value: u32) -> usize
    ensures { result ≡ short_width value }
{
    if value < 0x80 {
        1
    } else if value < 0x4000 {
        2
    } else {
        4
    }
}

/// Why there is no number at `at`. Four bytes are read before the first is judged, so with fewer it is 7, not 8.
#[tactic(auto, unfolding(crate::specs::Inner::width_of, crate::specs::Number::number_at))]
pub fn why_at(bytes: &[u8], at: usize) -> PlacedRefusal
    requires { Width bytes.now at None }
    ensures { Why bytes.now at result }
{
    let n = bytes.len();
    if n <= at || n - at < 4 {
        return PlacedRefusal {
            refusal: Refusal::ShortData,
            place: n,
        };
    }
    PlacedRefusal {
        refusal: Refusal::InvalidCompressedAnnotation,
        place: at + 4,
    }
}

// The byte at a place as a u32. One call gives its value and its bound.
#[inline(always)]
fn byte_at(bytes: &[u8], at: usize) -> u32
    requires { at < length bytes.now }
    ensures { Byte bytes.now at result }
{
    u32::from(bytes[at])
}

fn two_bytes(b1: u32, b2: u32) -> u32
    requires { b2 < 256 }
    ensures { result ≡ b1 % 64 * 256 + b2 }
{
    b1 % 64 * 256 + b2
}

fn four_bytes(b1: u32, b2: u32, b3: u32, b4: u32) -> u32
    requires { (b2 < 256) × ((b3 < 256) × (b4 < 256)) }
    ensures { result ≡ b1 % 32 * 2 ^ 24 + b2 * 2 ^ 16 + b3 * 2 ^ 8 + b4 }
{
    b1 % 32 * 0x1000000 + b2 * 0x10000 + b3 * 0x100 + b4
}
