// A UF2 file made of an image of whole pages, with a region for each sector.
#![tactic(auto)]

mod named;
mod sector;

ghost use Rattle.std.specs.Prelude.{◌≡◌, ◌+◌, ◌*◌, ◌<◌, ◌≤◌, length};
ghost use Rattle.laws.specs.Over.{over};
ghost use Rattle.laws.specs.Numbered.{numbered};
ghost use Rattle.uf2_make.specs.Uf2file.{make_call, call_number};
ghost use Rattle.uf2_make_regions.specs.File.{block_at, file_bytes, make_of};

use uf2_block::Block;
use uf2_make::PAGE;
use uf2_make::checks::MakeError;
use uf2_make::lead::Fields;

// The block of page k, with the sector that it lies in as its region.
// Kept, no plainer: image, family, start and total in a struct with these facts as ghost fields would be made in `make` alone, and read here.
fn put_page(image: &[u8], family: u32, start: u32, total: u32, k: u32, out: &mut [u8])
    requires image_len { length image.now ≡ 256 * total }
    requires window { start + 256 * total ≤ 0x12000000 }
    requires low { k < total }
    requires room { length out.old ≡ 512 }
    ensures { out.new ≡ block_at image.now family start k }
{
    let address = start + 256 * k;
    let base = address / 4096 * 4096;
    let first = start as usize;
    let begin = base as usize;
    let digest = sector::digest(image, first, begin);
    let i = k as usize;
    let a = PAGE * i;
    let e = a + PAGE;
    let fields = Fields {
        address,
        number: k,
        total,
        family,
    };
    named::put_block(out, fields, &image[a..e], base, digest);
}

// Writes a block for each page.
// Kept, no plainer: uf2_make has the same loop over its own blocks; one for both takes a trait with a law of the blocks' length.
fn write_blocks(image: &[u8], family: u32, start: u32, total: u32, output: &mut [u8])
    requires image_len { length image.now ≡ 256 * total }
    requires window { start + 256 * total ≤ 0x12000000 }
    requires room { 512 * total ≤ length output.old }
    ensures { output.new ≡ over output.old 0 (file_bytes image.now family start) }
{
    for k in 0..total {
        let i = k as usize;
        let from = Block::ARRIVAL * i;
        let to = from + Block::ARRIVAL;
        put_page(image, family, start, total, k, &mut output[from..to]);
    }
}

// Makes the file at the start of the output.
// Kept, no plainer: uf2_make has the same over its own `write_blocks`, for the reason given there.
pub fn make(image: &[u8], family: u32, start: u32, output: &mut [u8]) -> Result<u32, MakeError>
    ensures { numbered call_number (make_call result output.new) ≡ numbered call_number (make_of image.now family start output.old) }
{
    let total = uf2_make::checks::check(image.len(), start, output.len())?;
    write_blocks(image, family, start, total, output);
    Ok(total)
}
