// Whether the region that a block names with flag 0x4000 (02, L9) counts for the block: whole sectors, within the place and around the block.
ghost use Rattle.std.specs.Prelude.{◌≡◌};
ghost use Rattle.uf2_block.specs.Regions.{good_region};

use crate::{Block, Region};
use memory::flash::Flash;

// Does a region count for a block at an address, in a place of so many bytes? Its end may pass 32 bits.
pub fn good(region: Region, size: usize, address: u32) -> bool
    ensures { result ≡ good_region size address region }
{
    let start = region.start as usize;
    let len = region.len as usize;
    if start % Flash::SECTOR != 0 {
        return false;
    }
    if len % Flash::SECTOR != 0 {
        return false;
    }
    if len == 0 {
        return false;
    }
    if start < Block::WINDOW {
        return false;
    }
    let past = start + len;
    if size < past - Block::WINDOW {
        return false;
    }
    let at = address as usize;
    if at < start {
        return false;
    }
    at + Flash::PAYLOAD <= past
}
