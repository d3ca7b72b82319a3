// What is answered in slices: a mapping, and a part of the file that mapping reads. The digest goes on from `d`.
use crate::Question;
use msf::{Mapped, Refusal};
use needed::{Stage, needed_to_map};
use replay::{Digest, fill};
use slice_store::{SourceSlice, map_into};

const MAPPED: u64 = 15;

const MAP_REFUSED: u64 = 16;

const NEEDED: u64 = 61;

const NEED_REFUSED: u64 = 62;

// No answer has this case: a record in which it stands differs.
const PATHS_DIFFER: u64 = 99;

// No question asks for a longer store of offsets or sizes.
const MOST_ENTRIES: usize = 1024;

// By both paths, which must give one digest: into two stores of numbers, and into a store of slices.
pub(crate) fn map(d: Digest, q: Question, file: &[u8]) -> Digest {
    let by_numbers = in_numbers(d, q, |d, offsets, sizes| {
        let mapping = msf::map(file, q.stream, q.limit, offsets, sizes);
        answer(d, MAPPED, MAP_REFUSED, mapping)
    });
    let by_slices = in_slices(d, q, |d, slices| {
        let mapping = map_into(file, q.stream, q.limit, slices);
        answer(d, MAPPED, MAP_REFUSED, mapping)
    });
    if by_numbers == by_slices {
        by_numbers
    } else {
        by_numbers.plain(PATHS_DIFFER)
    }
}

pub(crate) fn need(d: Digest, q: Question, file: &[u8], stage: Stage) -> Digest {
    in_numbers(d, q, |d, offsets, sizes| {
        let mapping = needed_to_map(file, stage, offsets, sizes);
        answer(d, NEEDED, NEED_REFUSED, mapping)
    })
}

fn answer(d: Digest, accepted: u64, refused: u64, mapping: Result<Mapped, Refusal>) -> Digest {
    match mapping {
        Ok(m) => {
            let mapped = d.plain(accepted).plain(m.slices as u64);
            mapped.plain(m.length as u64)
        }
        Err(why) => d.refused(refused, why),
    }
}

// Asks with stores of offsets and sizes, and mixes in both after the answer.
fn in_numbers<A>(d: Digest, q: Question, ask: A) -> Digest
where
    A: Fn(Digest, &mut [u64], &mut [u64]) -> Digest,
    requires { A.IsAlwaysCallable ask }
{
    let mut offsets = [0u64; MOST_ENTRIES];
    let mut sizes = [0u64; MOST_ENTRIES];
    fill(&mut offsets, offset);
    fill(&mut sizes, size);
    if MOST_ENTRIES < q.offsets || MOST_ENTRIES < q.sizes {
        return d;
    }
    let offsets = &mut offsets[..q.offsets];
    let sizes = &mut sizes[..q.sizes];
    ask(d, offsets, sizes).all(offsets).all(sizes)
}

// The same with a store of slices, as long as the shorter of the two.
fn in_slices<A>(d: Digest, q: Question, ask: A) -> Digest
where
    A: Fn(Digest, &mut [SourceSlice]) -> Digest,
    requires { A.IsAlwaysCallable ask }
{
    let mut slices = [SourceSlice { offset: 0, size: 0 }; MOST_ENTRIES];
    fill(
        &mut slices,
        |i| SourceSlice {
            offset: offset(i),
            size: size(i) as usize,
        },
    );
    if MOST_ENTRIES < q.offsets || MOST_ENTRIES < q.sizes {
        return d;
    }
    let mut digest = ask(d, &mut slices[..q.offsets.min(q.sizes)]);
    for slice in &slices[..q.offsets] {
        digest = digest.plain(slice.offset);
    }
    for slice in &slices[..q.sizes] {
        digest = digest.plain(slice.size as u64);
    }
    digest
}

// What entry i of a store begins as: no slice has such an offset or size.
fn offset(i: usize) -> u64 {
    7000000000000000000u64.wrapping_add(i as u64)
}

fn size(i: usize) -> u64 {
    8000000000000000000u64.wrapping_add(i as u64)
}
