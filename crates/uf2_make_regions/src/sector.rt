// The digest of a sector's final bytes: what the image has there, and 0xFF in the rest.
ghost use Rattle.std.specs.Prelude.{◌≡◌, ◌+◌, ◌-◌, ◌≤◌, length, take, drop};
ghost use Rattle.memory.specs.Many.{many};
ghost use Rattle.laws.specs.Over.{over};
ghost use Rattle.md5_digest.specs.Md5.{md5_of};
ghost use Rattle.uf2_make_regions.specs.File.{sector_digest};

use md5_digest::Digest;
use memory::flash::Flash;

// The image's bytes copied into a sector of 0xFF.
fn placed(image: &[u8], at: usize, from: usize, count: usize) -> Digest
    requires count_bound { at + count ≤ 4096 }
    requires inside { from + count ≤ length image.now }
    ensures { result ≡ md5_of (over (many 4096 255) at (take count (drop from image.now))) }
{
    let mut sector = [255u8; Flash::SECTOR];
    let to = from + count;
    let end = at + count;
    sector[at..end].copy_from_slice(&image[from..to]);
    md5_digest::hash(&sector)
}

// The sector at `base`, of an image that begins at `start` and reaches into it.
pub(crate) fn digest(image: &[u8], start: usize, base: usize) -> Digest
    requires start_bound { start ≤ base + 4096 }
    requires reaches { base ≤ start + length image.now }
    ensures { result ≡ sector_digest image.now start base }
{
    let at = start.saturating_sub(base);
    let from = base.saturating_sub(start);
    let room = Flash::SECTOR - at;
    placed(image, at, from, room.min(image.len() - from))
}
