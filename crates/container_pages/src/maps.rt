// The free-map pages, and where the data pages begin behind them.
ghost use Rattle.std.specs.Prelude.{◌≡◌, ◌+◌, ◌-◌, ◌*◌, ◌^◌, ◌≤◌, ◌<◌, min, length};
ghost use Rattle.container_layout.specs.Laid.{Bounds};
ghost use Rattle.container_layout.specs.Place.{data_page};
ghost use Rattle.container_pages.specs.Inner.{Filled, Beginning, Freeing, low_bits, map_from};

use crate::fill::put_zeros;
use container_layout::{Layout, data_page};

// The bits in a byte of the free map.
const BITS: usize = 8;

/// Gets ready for the r-th data page: writes the pair of map pages before it, if there is one, and returns the place of
/// the data page. The caller guarantees the room up to there.
#[tactic(auto, using(crate::proofs::MapLaws::beginning))]
pub fn begin_page(layout: Layout, r: usize, out: &mut [u8]) -> usize
    requires bounds { Bounds layout }
    requires r_bound { r < 2 ^ 32 }
    requires room { data_page layout.pagesize r * layout.pagesize ≤ length out.old }
    ensures { Beginning layout r result out.old out.new }
{
    let size = layout.pagesize;
    let at = data_page(size, r) * size;
    let run = size - 2;
    if r % run == 0 {
        let map = at - 2 * size;
        put_map(layout, r / run, out, map);
        put_zeros(out, map + size, at);
    }
    at
}

// The q-th map page, at a place: bit b of its byte x is that of page 8 * (q * P + x) + b.
#[tactic(auto, using(crate::proofs::MapLaws::mapping))]
fn put_map(layout: Layout, q: usize, out: &mut [u8], at: usize)
    requires bounds { Bounds layout }
    requires q_bound { q < 2 ^ 32 }
    requires room { at + layout.pagesize ≤ length out.old }
    ensures { Filled (map_from layout q at) out.old at (at + layout.pagesize) out.new }
{
    let size = layout.pagesize;
    for x in 0..size {
        out[at + x] = free_bits(layout, BITS * (q * size + x)) as u8;
    }
}

// The bits of eight pages from page n on: 1 for a padding page, which lies behind the last data page.
#[tactic(auto, using(crate::proofs::MapLaws::freeing))]
fn free_bits(layout: Layout, n: usize) -> u32
    requires { Bounds layout }
    ensures { Freeing layout n result }
{
    low_bits(layout.used, n) - low_bits(layout.last + 1, n)
}

// One bit for each of the eight pages from page n on that is below `end`.
#[tactic(auto, using(crate::proofs::MapLaws::low_shift))]
fn low_bits(end: usize, n: usize) -> u32
    ensures { result ≡ low_bits (min (end - n) 8) }
{
    0xff >> (BITS - end.saturating_sub(n).min(BITS))
}
