// Maps of a region: its sectors that hold a piece, and its pieces.
ghost use Rattle.std.specs.Prelude.{◌≡◌, ◌/◌, length};
ghost use Rattle.file_check.specs.Regions.{in_turn};
ghost use Rattle.region_checking.specs.Parts.{sector_with, sectoring, note_with, noting};

use memory::flash::Flash;
use uf2_block::Region;

#[tactic(auto, using(crate::proofs::Laws::inside_low), unfolding(crate::specs::Parts::sector_with))]
fn mark_sector(region: Region, arrival: &[u8], map: &mut [u8])
    ensures { map.new ≡ sector_with region arrival.now map.old }
{
    if !crate::inside::is_inside(region, arrival) {
        return;
    }
    let address = uf2_block::field(arrival, 12) as usize;
    let start = region.start as usize;
    let at = address - start;
    memory::bitmap::mark(map, at / Flash::SECTOR);
}

// Marks every sector of a region, counted from 0, that a piece lies in.
// Kept, no plainer: as in `laying`, one call of `each_piece` with a step of its own.
pub(crate) fn mark_sectors(region: Region, file: &[u8], map: &mut [u8])
    ensures { map.new ≡ in_turn (sectoring file.now region) map.old (length file.now / 512) }
{
    crate::turns::each_piece(
        file,
        map,
        &|k, m| { mark_sector(region, crate::inside::piece(file, k), m) },
    );
}

#[tactic(auto, unfolding(crate::specs::Parts::note_with))]
fn note(region: Region, arrival: &[u8], k: usize, map: &mut [u8])
    ensures { map.new ≡ note_with region arrival.now k map.old }
{
    if !crate::inside::is_inside(region, arrival) {
        return;
    }
    memory::bitmap::mark(map, k);
}

// Marks every piece that is data in a region.
pub(crate) fn note_pieces(region: Region, file: &[u8], map: &mut [u8])
    ensures { map.new ≡ in_turn (noting file.now region) map.old (length file.now / 512) }
{
    crate::turns::each_piece(
        file,
        map,
        &|k, m| { note(region, crate::inside::piece(file, k), k, m) },
    );
}
