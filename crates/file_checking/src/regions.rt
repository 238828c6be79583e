// The first piece of a file that names a region that counts (02, L9).
ghost use Rattle.std.specs.Prelude.{◌≡◌, ◌<◌, ◌/◌, length};
ghost use Rattle.file_check.specs.Check.{guards_in};
ghost use Rattle.file_check.specs.First.{first_below};
ghost use Rattle.file_checking.specs.Regions.Guarding.{guards_alone, guards_at};

use placement::Place;
use uf2_block::Block;

// Does the region that an arrival names count in a place?
fn counts_in(place: Option<Place>, arrival: &[u8]) -> bool
    ensures { result ≡ guards_in place arrival.now }
{
    match place {
        None => false,
        Some(p) => {
            let region = uf2_block::read_region(arrival);
            let address = uf2_block::field(arrival, 12);
            uf2_block::covering::good(region, p.len, address)
        }
    }
}

// Is an arrival data, and does it name a region that counts? Most files name none: the flag is asked first.
#[tactic(auto, unfolding(crate::specs::Regions::Guarding::guards_alone))]
fn guards(place: Option<Place>, arrival: &[u8]) -> bool
    ensures { result ≡ guards_alone place arrival.now }
{
    if !uf2_block::has_region(arrival) {
        return false;
    }
    if !file_check::is_data(arrival) {
        return false;
    }
    counts_in(place, arrival)
}

// The first piece that is data and names a region that counts in a place.
pub(crate) fn first_guarding(place: Option<Place>, file: &[u8]) -> Option<usize>
    ensures { result ≡ first_below (length file.now / 512) (guards_at place file.now) }
{
    let n = file.len() / Block::ARRIVAL;
    (0..n).find(|i| guards(place, crate::earlier::bytes_at(file, *i)))
}
