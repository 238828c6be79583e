// Little-endian 32-bit fields of bytes, read and written.
ghost use Rattle.std.specs.Prelude.{◌≡◌};
ghost use Rattle.uf2_block.specs.Field.{field_at};
ghost use Rattle.uf2_block.specs.WordsWrite.{put_at};

// The little-endian 32-bit field at an offset, or 0 where it runs past the end.
pub fn field(bytes: &[u8], at: usize) -> u32
    ensures { result ≡ field_at bytes.now at }
{
    if bytes.len() < 4 {
        return 0;
    }
    if bytes.len() - 4 < at {
        return 0;
    }
    u32::from_le_bytes([bytes[at], bytes[at + 1], bytes[at + 2], bytes[at + 3]])
}

// Writes a little-endian 32-bit field at an offset, and nothing where it would run past the end.
pub fn put(bytes: &mut [u8], at: usize, x: u32)
    ensures { bytes.new ≡ put_at bytes.old at x }
{
    if bytes.len() < 4 {
        return;
    }
    if bytes.len() - 4 < at {
        return;
    }
    let e = at + 4;
    bytes[at..e].copy_from_slice(&x.to_le_bytes());
}
