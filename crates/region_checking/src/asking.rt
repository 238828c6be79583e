// The region that one piece names.
ghost use Rattle.std.specs.Prelude.{◌≡◌, ◌<◌, ◌≤◌, ◌/◌, length};
ghost use Rattle.file_check.specs.Regions.{fault_in};
ghost use Rattle.region_checking.specs.Parts.{names_in, noted_after, asked_of, regions_by, Noted, Roomy};

use file_check::fileregions::RegionFault;
use uf2_block::{Block, Region};

// Is an arrival data, and does it name a region that counts in a place of so many bytes?
#[tactic(auto, unfolding(crate::specs::Parts::names_in))]
fn names(size: usize, arrival: &[u8]) -> bool
    ensures { result ≡ names_in size arrival.now }
{
    let flag = uf2_block::has_region(arrival);
    let region = uf2_block::read_region(arrival);
    let address = uf2_block::field(arrival, 12);
    let counts = uf2_block::covering::good(region, size, address);
    file_check::is_data(arrival) & flag & counts
}

// What is wrong with the region that piece i names.
fn fault_in(
    region: Region,
    file: &[u8],
    i: usize,
    cells: &mut [u8],
    image: &mut [u8],
) -> Result<(), RegionFault>
    requires len_bound { region.len ≤ 33554432 }
    requires held { region.len ≤ length image.old }
    requires room { length cells.old ≡ 16384 }
    ensures { result ≡ fault_in file.now i region }
{
    if let Some(stray) = crate::inside::first_stray(region, file) {
        return Err(RegionFault::OtherRegion(i, stray));
    }
    let len = region.len as usize;
    let sectors = region.len / 4096;
    memory::bitmap::clear(cells);
    crate::marking::mark_sectors(region, file, cells);
    let bare = trace_counts::gaps::first_missing(cells, sectors);
    if bare < sectors {
        return Err(RegionFault::BareSector(i, bare as usize));
    }
    if crate::laying::digest_right(region, file, &mut image[0..len]) {
        return Ok(());
    }
    Err(RegionFault::OtherDigest(i))
}

// A region is asked, and where it is right its pieces are marked.
#[tactic(auto, unfolding(crate::specs::Parts::noted_after))]
fn ask_region(
    region: Region,
    file: &[u8],
    i: usize,
    numbers: &mut [u8],
    cells: &mut [u8],
    image: &mut [u8],
) -> Result<(), RegionFault>
    requires len_bound { region.len ≤ 33554432 }
    requires held { region.len ≤ length image.old }
    requires room { length cells.old ≡ 16384 }
    ensures value { result ≡ fault_in file.now i region }
    ensures left { numbers.new ≡ noted_after file.now i region numbers.old }
{
    fault_in(region, file, i, cells, image)?;
    crate::marking::note_pieces(region, file, numbers);
    Ok(())
}

// What is wrong with the region of piece i, where it names one that counts in a place of so many bytes. A marked piece is in a region that was found
// right.
pub(crate) fn ask(
    size: usize,
    file: &[u8],
    i: usize,
    numbers: &mut [u8],
    cells: &mut [u8],
    image: &mut [u8],
) -> Result<(), RegionFault>
    requires i_in_bounds { i < length file.now / 512 }
    requires room { Roomy size cells.old image.old }
    requires noted { Noted size file.now numbers.old }
    ensures value { result ≡ asked_of size file.now i }
    ensures left { Noted size file.now numbers.new }
{
    let arrival = crate::inside::piece(file, i);
    if !names(size, arrival) {
        return Ok(());
    }
    if memory::bitmap::marked(numbers, i) {
        return Ok(());
    }
    let region = uf2_block::read_region(arrival);
    ask_region(region, file, i, numbers, cells, image)
}

// Every piece in turn, up to the first whose region is wrong.
pub(crate) fn each_region(
    size: usize,
    file: &[u8],
    numbers: &mut [u8],
    cells: &mut [u8],
    image: &mut [u8],
) -> Result<(), RegionFault>
    requires roomy { Roomy size cells.old image.old }
    requires noted { Noted size file.now numbers.old }
    ensures { result ≡ regions_by size file.now }
{
    let n = file.len() / Block::ARRIVAL;
    for i in 0..n {
        ask(size, file, i, numbers, cells, image)?;
    }
    Ok(())
}
