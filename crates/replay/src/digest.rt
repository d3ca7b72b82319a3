// The digest of a record's answers: two lanes, each a polynomial modulo a prime below 2^32. `tests/differential`
// computes the same digest of the wanted answers.
ghost use Rattle.std.specs.Prelude.{◌≤◌};

use crate::number::word_at;
use outcome::Numbered;

const PRIME: u64 = 4294967291;

const FACTOR_A: u64 = 16777619;

const FACTOR_B: u64 = 48271;

#[derive(Clone, Copy, PartialEq, Eq)]
pub struct Digest {
    a: u32,
    b: u32,
}

impl Digest {
    /// Of no answers.
    pub fn new() -> Self {
        Digest { a: 0, b: 0 }
    }

    // The digest that ends a header.
    pub(crate) fn recorded<const N: usize>(header: &[u8; N]) -> Self
        requires has_digest { 8 ≤ N }
        requires is_short { N ≤ 64 }
    {
        Digest {
            a: word_at(header, N - 8),
            b: word_at(header, N - 4),
        }
    }

    /// With a count, a place or a case: its low half, then its high half.
    pub fn plain(self, word: u64) -> Self {
        self.mixed((word & 0xffffffff) as u32)
            .mixed((word >> 32) as u32)
    }

    /// With a signed number: its sign, and then its distance from 0 or from -1.
    pub fn signed(self, z: i64) -> Self {
        if z < 0 {
            self.plain(1).plain((-1 - z) as u64)
        } else {
            self.plain(0).plain(z as u64)
        }
    }

    /// With a byte of a store: one half, since there may be many.
    pub fn byte(self, b: u8) -> Self {
        self.mixed(u32::from(b))
    }

    /// With a refusal, after the number of its case.
    pub fn refused<E: Numbered + Copy>(self, case: u64, why: E) -> Self {
        self.plain(case)
            .plain(u64::from(why.number()))
            .plain(why.value())
    }

    /// With every entry of a store, in order.
    pub fn all<T: Entry>(self, store: &[T]) -> Self {
        let mut digest = self;
        for entry in store {
            digest = entry.mixed_into(digest);
        }
        digest
    }

    fn mixed(self, half: u32) -> Self {
        Digest {
            a: lane(self.a, FACTOR_A, half),
            b: lane(self.b, FACTOR_B, half),
        }
    }
}

fn lane(lane: u32, factor: u64, half: u32) -> u32 {
    let sum = u64::from(lane)
        .wrapping_mul(factor)
        .wrapping_add(u64::from(half))
        .wrapping_add(1);
    (sum % PRIME) as u32
}

/// An entry of a store.
pub trait Entry: Copy {
    fn mixed_into(&self, digest: Digest) -> Digest;
}

impl Entry for u8 {
    fn mixed_into(&self, digest: Digest) -> Digest {
        digest.byte(*self)
    }
}

impl Entry for u64 {
    fn mixed_into(&self, digest: Digest) -> Digest {
        digest.plain(*self)
    }
}

impl Entry for i64 {
    fn mixed_into(&self, digest: Digest) -> Digest {
        digest.signed(*self)
    }
}
