// The numbers of the data pages: all but the header's page and the free-map pages, whose number mod P is 1 or 2.
// Between two pairs of map pages there are P - 2 data pages.
ghost use Rattle.std.specs.Prelude.{◌≡◌, ◌-◌, ◌%◌, ◌^◌, ◌<◌};
ghost use Rattle.paged.specs.PageSize.{PageSize};
ghost use Rattle.container_layout.specs.Place.{data_page};

/// The r-th data page, r from 0.
#[tactic(auto, unfolding(crate::specs::Place::data_page))]
pub fn data_page(size: usize, r: usize) -> usize
    requires page_size { PageSize size }
    requires r_bound { r < 2 ^ 32 }
    ensures { result ≡ data_page size r }
{
    let run = size - 2;
    r / run * size + r % run + 3
}

/// How many data pages there are from the r-th on before the next map page.
pub fn pages_to_map(size: usize, r: usize) -> usize
    requires { PageSize size }
    ensures { result ≡ size - 2 - r % (size - 2) }
{
    let all = size - 2;
    all - r % all
}
