// One block of a UF2 file that is made: its fields, its page and the padding.
ghost use Rattle.std.specs.Prelude.{◌≡◌, length};
ghost use Rattle.uf2_make.specs.Uf2block.{block_bytes, block_over};

use crate::PAGE;
use crate::lead::Fields;
use uf2_block::Block;

fn put_block(out: &mut [u8], fields: Fields, page: &[u8])
    requires out_len { length out.old ≡ 512 }
    requires size { length page.now ≡ 256 }
    ensures { out.new ≡ block_bytes fields.address fields.number fields.total fields.family page.now }
{
    crate::lead::put_fields(out, Block::FLAG_FAMILY, fields);
    out[32..288].copy_from_slice(page);
    memory::fill::fill(&mut out[288..508], 0);
    uf2_block::put(out, 508, Block::MAGIC_LAST);
}

// Writes one block, for a tool that makes a file page by page. Where the output has not 512 bytes or the page not 256, nothing is written.
pub fn write_block(out: &mut [u8], fields: Fields, page: &[u8])
    ensures { out.new ≡ block_over out.old fields.address fields.number fields.total fields.family page.now }
{
    if out.len() != Block::ARRIVAL {
        return;
    }
    if page.len() != PAGE {
        return;
    }
    put_block(out, fields, page);
}
