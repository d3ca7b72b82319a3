// The numbers of the container: the header's after its magic, the directory's and the location list's. Past the last
// number there are zeros.
ghost use Rattle.std.specs.Prelude.{◌≡◌, ℕ, List, ◌+◌, ◌*◌, ◌^◌, ◌≤◌, ◌<◌, length, get_or};
ghost use Rattle.container_layout.specs.Container.{header_numbers, directory_numbers, location_numbers};
ghost use Rattle.container_pages.specs.Inner.{numbers_from, Filled};

use container_layout::{Planned, data_page};
use store::put;

// The header's second number: the free map in use is the first of the two.
const FREE_MAP: u32 = 1;

/// A list of numbers.
pub trait Numbers {
    // The list.
    ghost list: { Self → List ℕ };

    /// Number w, or 0 past the last.
    fn number(&self, w: usize) -> u32
        requires { w < 2 ^ 32 }
        ensures { result ≡ get_or (list self.now) w 0 };
}

/// page_size, free_page_map, pages_used, directory_size, reserved, and the location entry.
#[derive(Clone, Copy)]
pub struct HeaderNumbers<'a>(pub Planned<'a>);

/// The count, the sizes, and the streams' page numbers.
#[derive(Clone, Copy)]
pub struct DirectoryNumbers<'a>(pub Planned<'a>);

/// The directory's page numbers.
#[derive(Clone, Copy)]
pub struct LocationNumbers<'a>(pub Planned<'a>);

impl<'a> Numbers for HeaderNumbers<'a> {
    ghost list = { λ s. header_numbers s.0.layout.pagesize s.0.sizes.now };

    fn number(&self, w: usize) -> u32 {
        let layout = self.0.layout;
        match w {
            0 => layout.pagesize as u32,
            1 => FREE_MAP,
            2 => layout.used as u32,
            3 => (4 * (1 + self.0.sizes.len() + layout.streams)) as u32,
            5 => layout.last as u32,
            _ => 0,
        }
    }
}

impl<'a> Numbers for DirectoryNumbers<'a> {
    ghost list = { λ s. directory_numbers s.0.layout.pagesize s.0.sizes.now };

    #[tactic(auto, using(crate::proofs::NumberLaws::in_directory))]
    fn number(&self, w: usize) -> u32 {
        let Planned { layout, sizes } = self.0;
        let count = sizes.len();
        if w == 0 {
            count as u32
        } else if w <= count {
            sizes[w - 1]
        } else if w - 1 - count < layout.streams {
            data_page(layout.pagesize, w - 1 - count) as u32
        } else {
            0
        }
    }
}

impl<'a> Numbers for LocationNumbers<'a> {
    ghost list = { λ s. location_numbers s.0.layout.pagesize s.0.sizes.now };

    #[tactic(auto, using(crate::proofs::NumberLaws::in_location))]
    fn number(&self, w: usize) -> u32 {
        let layout = self.0.layout;
        if w < layout.directory {
            data_page(layout.pagesize, layout.streams + w) as u32
        } else {
            0
        }
    }
}

/// n numbers, from number `first` on, at a place. The caller guarantees the room.
pub fn put_numbers<N: Numbers>(numbers: &N, first: usize, n: usize, out: &mut [u8], at: usize)
    requires n_bound { first + n < 2 ^ 32 }
    requires room { at + 4 * n ≤ length out.old }
    ensures { Filled (numbers_from (N.list numbers.now) first at) out.old at (at + 4 * n) out.new }
{
    let mut place = at;
    for j in 0..n {
        place = put(out, place, &numbers.number(first + j).to_le_bytes());
    }
}
