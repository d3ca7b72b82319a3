// Putting a run of bytes into a lent store. A caller that appends run after run keeps the place that `put` returns.
#![tactic(auto)]

ghost use Rattle.std.specs.Prelude.{◌+◌, ◌≤◌, length};
ghost use Rattle.store.specs.Putting.{Putting};

/// Puts these bytes at a place, and returns the place after them. The caller guarantees the room.
#[tactic(auto, using(crate::proofs::PutLaws::putting))]
pub fn put(store: &mut [u8], at: usize, bytes: &[u8]) -> usize
    requires { at + length bytes.now ≤ length store.old }
    ensures { Putting bytes.now store.old at store.new result }
{
    let n = bytes.len();
    store[at..at + n].copy_from_slice(bytes);
    at + n
}
