// Records written as lines of Intel Hex: upper case, checksum, LF.
#![tactic(auto)]

pub mod digit_text;
pub mod filling;

ghost use Rattle.std.specs.Prelude.{◌≡◌, ◌+◌, ◌*◌, ◌<◌, ◌≤◌, [], ◌∷◌, length};
ghost use Rattle.laws.specs.Over.{over};
ghost use Rattle.ihex_record.specs.Write.{bytes_text, record_line};
ghost use Rattle.ihex_write.specs.Put.{put_record};

// A byte's two digits, high first.
fn put_byte(out: &mut [u8], at: usize, b: u8)
    requires { at + 2 ≤ length out.old }
    ensures { out.new ≡ over out.old at (bytes_text (b ∷ [])) }
{
    out[at..at + 2].copy_from_slice(&crate::digit_text::digits(b));
}

// The digits of bytes.
fn put_bytes(out: &mut [u8], at: usize, bytes: &[u8])
    requires { at + 2 * length bytes.now ≤ length out.old }
    ensures { out.new ≡ over out.old at (bytes_text bytes.now) }
{
    for i in 0..bytes.len() {
        put_byte(out, at + 2 * i, bytes[i]);
    }
}

// A record's line, for which there is room.
fn put_line(out: &mut [u8], at: usize, kind: u8, address: u16, data: &[u8])
    requires data_len_bound { length «data».now ≤ 32 }
    requires room { at + (12 + 2 * length «data».now) ≤ length out.old }
    ensures { out.new ≡ over out.old at (record_line kind address «data».now) }
{
    let [high, low] = address.to_be_bytes();
    let head = [data.len() as u8, high, low, kind];
    let sum = ihex_record::sum(&head).wrapping_add(ihex_record::sum(data));
    let check = 0u8.wrapping_sub(sum);
    let digits = at + 1;
    let rest = at + 9;
    let tail = rest + 2 * data.len();
    let last = tail + 2;
    out[at] = b':';
    put_bytes(out, digits, &head);
    put_bytes(out, rest, data);
    put_byte(out, tail, check);
    out[last] = b'\n';
}

// Writes a record's line from an index on. Where it does not fit, or the record has more data than a record may, nothing is written.
pub fn put_record(out: &mut [u8], at: usize, kind: u8, address: u16, data: &[u8])
    ensures { out.new ≡ put_record out.old at kind address «data».now }
{
    if !crate::digit_text::has_room(out.len(), at, data.len()) {
        return;
    }
    put_line(out, at, kind, address, data);
}
