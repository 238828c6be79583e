// A line of Intel Hex, read: its ending dropped, rows 20 to 22, and those of its bytes.
ghost use Rattle.std.specs.Prelude.{◌≡◌, ◌<◌, false, length, slice_index};
ghost use Rattle.ihex_record.specs.Record.{bad_shape, line_of_text, read_of, parsed_number, row_of};

use crate::{Line, LineError, Record};

// Rows 22 to 25 of a text that has passed rows 20 and 21.
fn read_digits(t: &[u8]) -> Line
    requires { (0 < length t.now) × (slice_index t.now 0 ≡ 58) × (bad_shape (length t.now) ≡ false) }
    ensures { result ≡ line_of_text t.now }
{
    let n = t.len();
    let mut bytes = [0u8; Record::BYTES];
    let bad = hex_digits::judge(&t[1..], &mut bytes);
    if bad < n - 1 {
        return crate::refusal(Err(LineError::BadDigit((bad + 1) as u16)));
    }
    crate::record_bytes::read_bytes(n, &bytes)
}

// Rows 20 to 25 of a text, which has no ending.
fn read_text(t: &[u8]) -> Line
    ensures { result ≡ line_of_text t.now }
{
    let n = t.len();
    if n == 0 {
        return crate::refusal(Err(LineError::NoColon));
    }
    if t[0] != 58 {
        return crate::refusal(Err(LineError::NoColon));
    }
    if (n < 11) | (521 < n) | (n % 2 == 0) {
        return crate::refusal(Err(LineError::BadShape));
    }
    read_digits(t)
}

// A line as it is handed, its ending included.
pub fn read(line: &[u8]) -> Line
    ensures value { result ≡ read_of line.now }
    ensures number { parsed_number result.parsed ≡ row_of line.now }
{
    let n = crate::text_len(line);
    read_text(&line[..n])
}
