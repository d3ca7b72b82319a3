// The run over the records of a list.
ghost use Rattle.std.specs.Prelude.{◌≤◌};

use crate::digest::Digest;
use crate::input::read_full;
use crate::record::{Answers, Record};
use crate::tally::{Next, Tally};
use std::io::{Read, Write};

/// Replays the list that `reader` gives, and reports to `writer`. `body` has room for the longest record.
pub fn replay<const N: usize, Q: Record<N> + Drop, R: Read, W: Write>(
    reader: &mut R,
    writer: &mut W,
    body: &mut [u8],
    stores: &mut Q::Stores,
)
    requires has_digest { 8 ≤ N }
    requires is_short { N ≤ 64 }
{
    // A proved loop must end, and nothing says that the input does. So the turns are counted, up to a number that no
    // run reaches.
    let mut tally = Tally::new();
    for _ in 0..u64::MAX {
        if tally.next != Next::Record {
            break;
        }
        tally = replay_record::<N, Q, R>(tally, reader, body, stores);
    }
    tally.report(writer);
}

fn replay_record<const N: usize, Q: Record<N> + Drop, R: Read>(
    tally: Tally,
    reader: &mut R,
    body: &mut [u8],
    stores: &mut Q::Stores,
) -> Tally
    requires has_digest { 8 ≤ N }
    requires is_short { N ≤ 64 }
{
    let mut header = [0u8; N];
    let got = read_full(reader, &mut header);
    if got == 0 {
        return tally.stopped(Next::Ended);
    }
    if got < N {
        return tally.stopped(Next::Bad);
    }
    let Some(record) = Q::parse(&header) else {
        return tally.stopped(Next::Bad);
    };
    let n = record.length();
    if body.len() < n || read_full(reader, &mut body[..n]) < n {
        return tally.stopped(Next::Bad);
    }
    match record.ask(&mut body[..n], stores) {
        Some(Answers::Asked(questions, digest)) => {
            tally.counted(questions, digest == Digest::recorded(&header))
        }
        Some(Answers::Kept) => tally.counted(0, true),
        None => tally.stopped(Next::Bad),
    }
}
