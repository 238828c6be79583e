// The bytes of the packed store that are no entry: stray bits, a link of kind 3, or a user count over 4.
ghost use Rattle.std.specs.Prelude.{◌≡◌};
ghost use Rattle.store_entry.specs.EntryBits.{stray_from, stray_in};
ghost use Rattle.store_entry.specs.Fields.{chunk_fields};

use crate::chunk_bits::Chunks;

fn stray_of(version: u8, c: Chunks) -> bool
    ensures { result ≡ stray_from version (chunk_fields c) }
{
    let h = c.h;
    let kind = h / 8192 % 4;
    let n = h % 8;
    (kind == 3)
        | ((kind == 0) & (h / 512 % 16 != 0))
        | (4 < n)
        | ((n <= 0) & (c.u != 0))
        | ((n <= 1) & (c.v != 0))
        | ((n <= 2) & (c.w != 0))
        | ((n <= 3) & (c.x != 0))
        | ((version == 1) & (c.tail / 32 % 2 != 0))
        | (c.tail % 32 != 0)
}

// Are 22 bytes no entry of a version: stray bits, kind 3, or a user count over 4?
pub fn stray(bytes: &[u8], version: u8) -> bool
    ensures { result ≡ stray_in version bytes.now }
{
    match crate::chunk_bits::read_entry(bytes) {
        Some(c) => stray_of(version, c),
        None => true,
    }
}
