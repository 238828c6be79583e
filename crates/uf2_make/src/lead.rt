// The fields of a UF2 block before its data, written.
ghost use Rattle.std.specs.Prelude.{◌≡◌};
ghost use Rattle.uf2_make.specs.Uf2lead.{first_over, last_over};

use uf2_block::Block;

// The fields in which the blocks of a file differ, and its family.
#[derive(Clone, Copy, PartialEq, Eq)]
pub struct Fields {
    pub address: u32,
    pub number: u32,
    pub total: u32,
    pub family: u32,
}

// Magic numbers, flags and address, then the payload's size, number, total and family.
pub fn put_fields(out: &mut [u8], flags: u32, fields: Fields)
    ensures { out.new ≡ last_over (first_over out.old flags fields.address) fields.number fields.total fields.family }
{
    uf2_block::put(out, 0, Block::MAGIC_FIRST);
    uf2_block::put(out, 4, Block::MAGIC_SECOND);
    uf2_block::put(out, 8, flags);
    uf2_block::put(out, 12, fields.address);
    uf2_block::put(out, 16, 256);
    uf2_block::put(out, 20, fields.number);
    uf2_block::put(out, 24, fields.total);
    uf2_block::put(out, 28, fields.family);
}
