// Two characters a byte, by a lent table of the values of characters as digits: below 16, or 16 and more where a character is none.
ghost use Rattle.std.specs.Prelude.{◌≡◌, ◌*◌, ◌/◌, min, length, take};
ghost use Rattle.hex_digits.specs.Values.{all_by, value_in};
ghost use Rattle.hex_digits.specs.Pairs.{decoded_by};

// The bytes that the characters say go to `out` as far as it has room. Are the characters that are said so digits? No branch leaves the loop
// at one that is none: the values found are or-ed, and judged once, at the end.
pub fn pairs(table: &[u8; 256], chars: &[u8], out: &mut [u8]) -> bool
    ensures value { result ≡ all_by (value_in table.now) (take (2 * min (length chars.now / 2) (length out.old)) chars.now) }
    ensures bytes { out.new ≡ decoded_by (value_in table.now) chars.now out.old }
{
    let room = (chars.len() / 2).min(out.len());
    let mut found: u8 = 0;
    for i in 0..room {
        let high = table[chars[2 * i] as usize];
        let low = table[chars[2 * i + 1] as usize];
        found = found | high | low;
        out[i] = 16 * (high % 16) + low % 16;
    }
    found < 16
}
