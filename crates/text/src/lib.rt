// The parts of a line of text, put one after the other: bytes, a number in decimal, a flag, two numbers.
#![tactic(auto)]

pub mod hex_answer;
pub mod hex_state;
pub mod lines;

ghost use Rattle.std.specs.Prelude.{◌≡◌, cond, length};
ghost use Rattle.laws.specs.Over.{over};
ghost use Rattle.text.specs.Parts.{end_of, put_part, decimal_of, pair_text};

// Kept, contract: the array with a length beside: each line is always put whole; a `Display`'s `output` is promised on `Ok` alone.
// Puts a part at an index, and answers the index after it. Where it does not fit, nothing is put, and the answer is the index.
pub fn put(out: &mut [u8], at: usize, part: &[u8]) -> usize
    ensures value { result ≡ end_of out.old at part.now }
    ensures out_after { out.new ≡ put_part out.old at part.now }
{
    if out.len() < at {
        return at;
    }
    if out.len() - at < part.len() {
        return at;
    }
    let e = at + part.len();
    out[at..e].copy_from_slice(part);
    e
}

// The same of a number in decimal.
pub fn put_decimal(out: &mut [u8], at: usize, n: u64) -> usize
    ensures value { result ≡ end_of out.old at (decimal_of n) }
    ensures out_after { out.new ≡ put_part out.old at (decimal_of n) }
{
    let mut text = [0u8; 20];
    let k = io::decimal(n, &mut text);
    put(out, at, &text[..k])
}

// 1 or 0, as a character.
pub fn flag(b: bool) -> u8
    ensures { result ≡ cond b 49 48 }
{
    b'0' + u8::from(b)
}

// An index and an answer, with a space between.
pub fn put_pair(out: &mut [u8; 80], index: u64, answer: u8) -> usize
    ensures value { result ≡ length (pair_text index answer) }
    ensures out_after { out.new ≡ over out.old 0 (pair_text index answer) }
{
    let a = put_decimal(out, 0, index);
    let b = put(out, a, b" ");
    put_decimal(out, b, answer as u64)
}
