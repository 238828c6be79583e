// A UF2 file made of an image of whole pages.
#![tactic(auto)]

pub mod checks;
pub mod lead;
pub mod page_block;

ghost use Rattle.std.specs.Prelude.{◌≡◌, ◌+◌, ◌*◌, ◌≤◌, length};
ghost use Rattle.laws.specs.Over.{over};
ghost use Rattle.laws.specs.Numbered.{numbered};
ghost use Rattle.uf2_make.specs.Uf2file.{
  file_bytes,
  make_call,
  call_number,
  make_of,
};

use crate::checks::MakeError;
use crate::lead::Fields;
use uf2_block::Block;

// The bytes of an image that one block holds.
pub const PAGE: usize = 256;

// Writes a block for each page.
// Kept, no plainer: uf2_make_regions has the same loop over its own blocks; one for both takes a trait with a law of the blocks' length.
fn write_blocks(image: &[u8], family: u32, start: u32, total: u32, output: &mut [u8])
    requires image_len { length image.now ≡ 256 * total }
    requires window { start + 256 * total ≤ 0x12000000 }
    requires room { 512 * total ≤ length output.old }
    ensures { output.new ≡ over output.old 0 (file_bytes image.now family start) }
{
    for k in 0..total {
        let i = k as usize;
        let a = PAGE * i;
        let e = a + PAGE;
        let from = Block::ARRIVAL * i;
        let to = from + Block::ARRIVAL;
        let fields = Fields {
            address: start + 256 * k,
            number: k,
            total,
            family,
        };
        crate::page_block::write_block(&mut output[from..to], fields, &image[a..e]);
    }
}

// Makes the file at the start of the output.
// Kept, no plainer: uf2_make_regions has the same over its own `write_blocks`, for the reason given there.
pub fn make(image: &[u8], family: u32, start: u32, output: &mut [u8]) -> Result<u32, MakeError>
    ensures { numbered call_number (make_call result output.new) ≡ numbered call_number (make_of image.now family start output.old) }
{
    let total = crate::checks::check(image.len(), start, output.len())?;
    write_blocks(image, family, start, total, output);
    Ok(total)
}
