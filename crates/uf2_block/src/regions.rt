// The region that a block names with flag 0x4000 (02, L9): whether the flash has its digest already.
ghost use Rattle.std.specs.Prelude.{◌≡◌};
ghost use Rattle.uf2_block.specs.Regions.{same_digest, stands_in};

use crate::{Block, Region};
use md5_digest::Digest;

// Is this the digest that a region names?
pub fn same_digest(found: Digest, region: Region) -> bool
    ensures { result ≡ same_digest found region }
{
    found
        == Digest {
            a: region.a,
            b: region.b,
            c: region.c,
            d: region.d,
        }
}

// Does the flash have a region's digest, in a place that starts at `start`? A region that is not in the flash has none. Nothing is added before
// it is known to be in the flash.
pub fn stands(flash: &[u8], start: usize, region: Region) -> bool
    ensures { result ≡ stands_in flash.now start region }
{
    let address = region.start as usize;
    let len = region.len as usize;
    if address < Block::WINDOW {
        return false;
    }
    let offset = address - Block::WINDOW;
    if flash.len() < len {
        return false;
    }
    let last = flash.len() - len;
    if last < offset {
        return false;
    }
    if last - offset < start {
        return false;
    }
    let from = start + offset;
    let past = from + len;
    let found = md5_digest::hash(&flash[from..past]);
    same_digest(found, region)
}
