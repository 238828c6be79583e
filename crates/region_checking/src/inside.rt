// An arrival beside a region: whether it is data in it, and whether it names the same one.
ghost use Rattle.std.specs.Prelude.{◌≡◌, ◌<◌, ◌/◌, length};
ghost use Rattle.file_check.specs.Check.{piece_at};
ghost use Rattle.file_check.specs.First.{first_below};
ghost use Rattle.file_check.specs.Regions.{inside_of, strays_from, is_stray};

use uf2_block::{Block, Region};

// A piece of a file: 512 bytes.
// Kept, contract: `bytes_at` of file_checking is this too. It is not public, since no public function has a `requires`, and it has one.
pub(crate) fn piece(file: &[u8], i: usize) -> &[u8]
    requires { i < length file.now / 512 }
    ensures { result.now ≡ piece_at file.now i }
{
    let from = i * Block::ARRIVAL;
    let to = from + Block::ARRIVAL;
    &file[from..to]
}

// Is an arrival data, with an address in a region? The region's end may pass 32 bits.
#[tactic(auto, unfolding(file_check::specs::Regions::inside_of))]
pub(crate) fn is_inside(region: Region, arrival: &[u8]) -> bool
    ensures { result ≡ inside_of region arrival.now }
{
    let address = uf2_block::field(arrival, 12) as usize;
    let start = region.start as usize;
    let past = start + region.len as usize;
    file_check::is_data(arrival) & (start <= address) & (address < past)
}

// Is an arrival data in a region, and does it name none or another?
#[tactic(auto, unfolding(file_check::specs::Regions::strays_from, file_check::specs::Regions::same_region))]
fn strays(region: Region, arrival: &[u8]) -> bool
    ensures { result ≡ strays_from region arrival.now }
{
    let own = is_inside(region, arrival);
    let flag = uf2_block::has_region(arrival);
    let named = uf2_block::read_region(arrival);
    own & !(flag & (named == region))
}

// The first piece that is data in a region and names none or another.
pub(crate) fn first_stray(region: Region, file: &[u8]) -> Option<usize>
    ensures { result ≡ first_below (length file.now / 512) (is_stray file.now region) }
{
    let n = file.len() / Block::ARRIVAL;
    (0..n).find(|i| strays(region, piece(file, *i)))
}
