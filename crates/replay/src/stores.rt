// Asking with a store that is lent.
use crate::digest::{Digest, Entry};

/// The sizes of the stores that a record asks about.
#[derive(Clone, Copy)]
pub struct Rooms {
    pub low: usize,
    pub high: usize,
}

impl Rooms {
    /// Whether there is a size, and none above `most`.
    pub fn are_within(self, most: usize) -> bool {
        self.low <= self.high && self.high <= most
    }
}

/// Asks once for each size of the store.
pub fn in_rooms<T, U, A>(d: Digest, store: &mut [T], rooms: Rooms, untouched: U, ask: A) -> Digest
where
    T: Entry,
    U: Fn(usize) -> T,
    A: Fn(Digest, &mut [T]) -> Digest,
    requires untouched_callable { U.IsAlwaysCallable untouched }
    requires ask_callable { A.IsAlwaysCallable ask }
{
    let mut digest = d;
    for room in rooms.low..=rooms.high {
        if room <= store.len() {
            digest = in_store(digest, &mut store[..room], &untouched, &ask);
        }
    }
    digest
}

/// Fills the store with entries that no answer has, asks, and mixes in the whole store after the answer, so that an
/// entry written by mistake shows.
pub fn in_store<T, U, A>(d: Digest, store: &mut [T], untouched: U, ask: A) -> Digest
where
    T: Entry,
    U: Fn(usize) -> T,
    A: Fn(Digest, &mut [T]) -> Digest,
    requires untouched_callable { U.IsAlwaysCallable untouched }
    requires ask_callable { A.IsAlwaysCallable ask }
{
    fill(store, untouched);
    ask(d, store).all(store)
}

/// Puts an entry of its own at each place.
pub fn fill<T, U>(store: &mut [T], entry: U)
where
    T: Copy,
    U: Fn(usize) -> T,
    requires { U.IsAlwaysCallable entry }
{
    for (i, x) in store.iter_mut().enumerate() {
        *x = entry(i);
    }
}
