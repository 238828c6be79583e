// The filling of a section of Universal Hex to a multiple of 512 characters.
ghost use Rattle.std.specs.Prelude.{◌≡◌, ◌≤◌, replicate};
ghost use Rattle.ihex_write.specs.Put.{put_line, put_lines};
ghost use Rattle.ihex_record.specs.Write.{record_line};
ghost use Rattle.ihex_write.specs.Fill.{missing, fill_lines};

use ihex_record::Record;

// What is missing to a multiple of 512, after n characters and an empty 0B.
pub fn missing_after(n: usize) -> usize
    ensures { result ≡ missing n }
{
    (512 - (n % 512 + 12) % 512) % 512
}

// A record of n bytes of 0xFF, with the address field 0.
fn put_filling(out: &mut [u8], at: usize, kind: u8, n: usize)
    requires { n ≤ 32 }
    ensures { out.new ≡ put_line out.old at (record_line kind 0 (replicate n 255)) }
{
    let filling = [255u8; Record::MAX];
    crate::put_record(out, at, kind, 0, &filling[..n]);
}

// The filling of a section after its first n characters, from `at` on.
pub fn put_fill(out: &mut [u8], at: usize, n: usize)
    ensures { out.new ≡ put_lines out.old at (fill_lines (missing n)) }
{
    if out.len() < at {
        return;
    }
    let m = missing_after(n);
    let pads = m.saturating_sub(1) / 64;
    for k in 0..pads {
        put_filling(out, at + 64 * k, Record::PADDED_DATA, 26);
    }
    put_filling(out, at + 64 * pads, Record::BLOCK_END, (m - 64 * pads) / 2);
}
