// Rows 23 to 25 of a line of Intel Hex, and the record that its bytes say.
ghost use Rattle.std.specs.Prelude.{◌≡◌, ◌+◌, ◌≤◌, length};
ghost use Rattle.ihex_record.specs.Record.{len_of, good};
ghost use Rattle.ihex_record.specs.Bytes.{line_in};

use crate::{Line, LineError, Record};

// The line of a good record, of which `used` bytes are data.
fn good_line(bytes: &[u8], used: usize) -> Line
    requires { (used ≡ len_of bytes.now) × (used ≤ 32) × (used + 5 ≤ length bytes.now) }
    ensures { result ≡ good bytes.now }
{
    let len = bytes[0];
    let kind = bytes[3];
    let address = crate::word(bytes[1], bytes[2]);
    let e = used + 4;
    let mut data = [0u8; Record::MAX];
    data[..used].copy_from_slice(&bytes[4..e]);
    Line {
        parsed: Ok(Record { kind, address, len }),
        data,
    }
}

// Rows 23 to 25 of n characters, whose bytes are the first of these.
pub fn read_bytes(n: usize, bytes: &[u8; Record::BYTES]) -> Line
    ensures { result ≡ line_in n bytes.now }
{
    let room: &[u8] = bytes;
    let used = room[0] as usize;
    if Record::MAX < used {
        return crate::refusal(Err(LineError::TooLong));
    }
    if n != 11 + 2 * used {
        return crate::refusal(Err(LineError::BadLength));
    }
    let e = used + 5;
    let all = &room[..e];
    if crate::sum(all) != 0 {
        return crate::refusal(Err(LineError::BadSum));
    }
    good_line(all, used)
}
