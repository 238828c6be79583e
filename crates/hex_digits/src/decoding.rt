// Characters decoded by a lent table of their values as digits: the bytes that they say, and the first that is no digit.
ghost use Rattle.std.specs.Prelude.{◌≡◌};
ghost use Rattle.hex_digits.specs.Values.{all_by, value_in};
ghost use Rattle.hex_digits.specs.Pairs.{decoded_by};
ghost use Rattle.hex_digits.specs.First.{first_by};

// Are the characters digits? No loop leaves at a character that is none: the values met are or-ed, and judged once, at the end.
fn all_digits(table: &[u8; 256], chars: &[u8]) -> bool
    ensures { result ≡ all_by (value_in table.now) chars.now }
{
    let mut met: u8 = 0;
    for i in 0..chars.len() {
        let value = table[chars[i] as usize];
        met = met | value;
    }
    met < 16
}

// Are the characters digits? Their bytes go to `out` as far as it has room.
fn decode(table: &[u8; 256], chars: &[u8], out: &mut [u8]) -> bool
    ensures value { result ≡ all_by (value_in table.now) chars.now }
    ensures bytes { out.new ≡ decoded_by (value_in table.now) chars.now out.old }
{
    let e = 2 * (chars.len() / 2).min(out.len());
    let good = crate::pairs::pairs(table, chars, out);
    good & all_digits(table, &chars[e..])
}

// The index of the first character that is no digit, or how many there are. Only a line with such a character gets here.
fn first_bad(table: &[u8; 256], chars: &[u8]) -> usize
    ensures { result ≡ first_by (value_in table.now) chars.now }
{
    for i in 0..chars.len() {
        let value = table[chars[i] as usize];
        if 16 <= value {
            return i;
        }
    }
    chars.len()
}

// The index of the first character that is no digit, or how many there are; the bytes that the characters say go to `out` as far as it
// has room.
pub fn judge(table: &[u8; 256], chars: &[u8], out: &mut [u8]) -> usize
    ensures value { result ≡ first_by (value_in table.now) chars.now }
    ensures bytes { out.new ≡ decoded_by (value_in table.now) chars.now out.old }
{
    let good = decode(table, chars, out);
    if good {
        return chars.len();
    }
    first_bad(table, chars)
}
