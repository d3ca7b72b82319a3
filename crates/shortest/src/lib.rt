// Numbers in their shortest form: the bytes from which `numbers` reads them back, as few as can be.
#![tactic(auto)]

ghost use Rattle.std.specs.Prelude.{◌≡◌, ◌+◌, ◌^◌, ◌≤◌, ◌<◌, length};
ghost use Rattle.store.specs.Putting.{Putting};
ghost use Rattle.shortest.specs.Short.{short};

use store::put;

// The first numbers that take two bytes and four, and what marks their forms.
const TWO_BYTES: u32 = 0x80;

const FOUR_BYTES: u32 = 0x4000;

const MARK_OF_TWO: u16 = 0x8000;

const MARK_OF_FOUR: u32 = 0xc000_0000;

/// How many bytes the shortest form takes.
#[tactic(auto, using(crate::proofs::ShortLaws::short_length))]
pub fn short_width(n: u32) -> usize
    ensures { result ≡ length (short n) }
{
    numbers::short_width(n)
}

/// Puts the shortest form at a place, and returns the place after it. The caller guarantees that the number has a form,
/// and the room.
#[tactic(auto, using(crate::proofs::ShortLaws::put_cases))]
pub fn put_short(out: &mut [u8], at: usize, n: u32) -> usize
    requires n_bound { n < 2 ^ 29 }
    requires room { at + length (short n) ≤ length out.old }
    ensures { Putting (short n) out.old at out.new result }
{
    if n < TWO_BYTES {
        put(out, at, &[n as u8])
    } else if n < FOUR_BYTES {
        put(out, at, &(MARK_OF_TWO + n as u16).to_be_bytes())
    } else {
        put(out, at, &(MARK_OF_FOUR + n).to_be_bytes())
    }
}
