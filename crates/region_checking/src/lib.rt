// The regions of a file checked (02, L9), after the check of the file: every region that a piece names, once.
#![tactic(auto)]

mod asking;
mod inside;
mod laying;
mod marking;
mod turns;

ghost use Rattle.std.specs.Prelude.{◌≡◌, length};
ghost use Rattle.memory.specs.Many.{many};
ghost use Rattle.memory.specs.Bitmap.{unmarked};
ghost use Rattle.demand.specs.Demand.{size_of};
ghost use Rattle.file_check.specs.Check.{check_of};
ghost use Rattle.file_check.specs.Regions.{names_regions, regions_of, after_check, check_regions_of};
ghost use Rattle.region_checking.specs.Parts.{Opened};

use file_check::FileFault;
use file_check::fileregions::{RegionFault, RegionsChecked};
use partitions::Settings;
use placement::Place;
use uf2_block::Block;
use uf2_checks::Lengths;

// The bytes of a place.
fn size_of(place: Option<Place>) -> usize
    ensures { result ≡ size_of place }
{
    place.map_or(0, |p| p.len)
}

// Did the first check find a valid file that names regions?
fn names_regions(found: Result<(), FileFault>) -> bool
    ensures { result ≡ names_regions found }
{
    matches!(found, Err(FileFault::Guarded(_)))
}

// The regions of a file that the first check found valid.
fn regions(
    settings: Settings,
    lens: Lengths,
    file: &[u8],
    numbers: &mut [u8],
    cells: &mut [u8],
    image: &mut [u8],
) -> Result<(), RegionFault>
    requires { Opened settings lens file.now numbers.old cells.old image.old }
    ensures { result ≡ regions_of settings lens file.now }
{
    let family = uf2_block::field(&file[0..Block::ARRIVAL], 28);
    let rooms = uf2_checks::family::rooms_for(settings, lens.flash, family);
    let place = rooms.flash;
    let size = size_of(place);
    crate::asking::each_region(size, file, numbers, cells, image)
}

// After the first check: another answer stays.
#[tactic(auto, unfolding(file_check::specs::Regions::after_check))]
fn after_check(
    settings: Settings,
    lens: Lengths,
    found: Result<(), FileFault>,
    file: &[u8],
    numbers: &mut [u8],
    cells: &mut [u8],
    offsets: &[u8],
    image: &mut [u8],
) -> RegionsChecked
    requires found_value { found ≡ check_of settings lens (length numbers.old) (length cells.old) (length offsets.now) file.now }
    requires cleared { numbers.old ≡ unmarked (length numbers.old) }
    ensures { result ≡ after_check settings lens (length image.old) file.now found }
{
    if !names_regions(found) {
        return RegionsChecked::As(found);
    }
    if image.len() != lens.flash {
        return RegionsChecked::As(Err(FileFault::BadBuffers));
    }
    RegionsChecked::Named(regions(settings, lens, file, numbers, cells, image))
}

// What is wrong with a file for a board with such settings and buffers of such lengths, its regions too: the first thing, or nothing. Lent are the
// three maps of `file_checking::check`, which are left all zero, and an image of the flash's length, which is left all 0xFF, whatever the answer.
pub fn check_regions(
    settings: Settings,
    lens: Lengths,
    file: &[u8],
    numbers: &mut [u8],
    cells: &mut [u8],
    offsets: &mut [u8],
    image: &mut [u8],
) -> RegionsChecked
    ensures value { result ≡ check_regions_of settings lens (length numbers.old) (length cells.old) (length offsets.old) (length image.old) file.now }
    ensures left { (numbers.new ≡ unmarked (length numbers.old)) × (cells.new ≡ unmarked (length cells.old)) × (offsets.new ≡ unmarked (length offsets.old)) × (image.new ≡ many (length image.old) 255) }
{
    let found = file_checking::check(settings, lens, file, numbers, cells, offsets);
    let said = after_check(settings, lens, found, file, numbers, cells, offsets, image);
    memory::bitmap::clear(numbers);
    memory::bitmap::clear(cells);
    memory::fill::fill(image, 255);
    said
}
