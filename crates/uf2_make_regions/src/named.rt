// One block that names its sector as its region: its fields, its page, the padding and the region.
ghost use Rattle.std.specs.Prelude.{◌≡◌, length};
ghost use Rattle.laws.specs.Over.{over};
ghost use Rattle.uf2_make_regions.specs.Block.{lead_bytes, region_bytes, block_bytes};

use md5_digest::Digest;
use uf2_block::Block;
use uf2_make::lead::Fields;

// Flags 0x2000 and 0x4000: a family, and a region.
const FLAGS: u32 = Block::FLAG_FAMILY | Block::FLAG_MD5;

// The fields before the data.
fn put_lead(out: &mut [u8], fields: Fields)
    requires { length out.old ≡ 512 }
    ensures { out.new ≡ over out.old 0 (lead_bytes fields.address fields.number fields.total fields.family) }
{
    uf2_make::lead::put_fields(out, FLAGS, fields);
}

// The region: where the sector begins, its length and its digest.
fn put_region(out: &mut [u8], base: u32, digest: Digest)
    requires { length out.old ≡ 24 }
    ensures { out.new ≡ region_bytes base digest }
{
    uf2_block::put(out, 0, base);
    uf2_block::put(out, 4, 4096);
    uf2_block::digest_bytes::put_digest(&mut out[8..24], digest);
}

pub(crate) fn put_block(out: &mut [u8], fields: Fields, page: &[u8], base: u32, digest: Digest)
    requires out_len { length out.old ≡ 512 }
    requires size { length page.now ≡ 256 }
    ensures { out.new ≡ block_bytes fields.address fields.number fields.total fields.family page.now base digest }
{
    put_lead(out, fields);
    out[32..288].copy_from_slice(page);
    memory::fill::fill(&mut out[288..484], 0);
    put_region(&mut out[484..508], base, digest);
    uf2_block::put(out, 508, Block::MAGIC_LAST);
}
