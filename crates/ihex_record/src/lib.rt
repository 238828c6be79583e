// One line of Intel Hex: a record, or the check that it fails; the length of its text, a sum, a word, and the line of a refusal.
#![tactic(auto)]

pub mod record_bytes;
pub mod record_line;

ghost use Rattle.std.specs.Prelude.{◌≡◌, ◌%◌, ◌≤◌, length};
ghost use Rattle.ihex_record.specs.Record.{text_len, total, word_from, refused, error_number, parsed_number};

// A good record: its type, its address field, and how many bytes of data it has.
#[derive(Clone, Copy)]
pub struct Record {
    // Kept, contract: a number and no enum: a line of any type is read as a good record (`record_of`, `LineIsRead`).
    pub kind: u8,
    pub address: u16,
    pub len: u8,
}

// The first check that a line fails.
#[derive(Clone, Copy)]
pub enum LineError {
    NoColon,
    BadShape,
    // the position of the first bad character, counted from 0 at the colon
    BadDigit(u16),
    TooLong,
    BadLength,
    BadSum,
}

// What a line says: a record, or the check that it fails. A record's data is the first `len` bytes; the rest are 0.
// Kept, contract: a refused line has its 32 zeros too (`refused`), and `read` promises both.
#[derive(Clone, Copy)]
pub struct Line {
    pub parsed: Result<Record, LineError>,
    pub data: [u8; Record::MAX],
}

impl Record {
    // the types, named as in Intel Hex and in 002: data, end of file, extended linear address, block start, block end, padded data,
    // custom data, other data
    pub const DATA: u8 = 0;

    pub const END_OF_FILE: u8 = 1;

    pub const EXTENDED_LINEAR: u8 = 4;

    pub const BLOCK_START: u8 = 10;

    pub const BLOCK_END: u8 = 11;

    pub const PADDED_DATA: u8 = 12;

    pub const CUSTOM_DATA: u8 = 13;

    pub const OTHER_DATA: u8 = 14;

    // the most data bytes of a record
    pub const MAX: usize = 32;

    // the most bytes of a record: length, address, type, data, checksum
    pub const BYTES: usize = Record::MAX + 5;
}

impl LineError {
    // 01's number of a refusal.
    pub fn number(self) -> u8
        ensures { result ≡ error_number self }
    {
        match self {
            LineError::NoColon => 20,
            LineError::BadShape => 21,
            LineError::BadDigit(_) => 22,
            LineError::TooLong => 23,
            LineError::BadLength => 24,
            LineError::BadSum => 25,
        }
    }
}

// 01's number of what a line says: of a refusal, and 0 for a good record.
pub fn number(parsed: Result<Record, LineError>) -> u8
    ensures { result ≡ parsed_number parsed }
{
    match parsed {
        Ok(_) => 0,
        Err(error) => error.number(),
    }
}

// How many characters are left when the ending is dropped.
pub fn text_len(line: &[u8]) -> usize
    ensures value { result ≡ text_len line.now }
    ensures within { result ≤ length line.now }
{
    let n = line.len();
    if n == 0 {
        return 0;
    }
    if line[n - 1] != 10 {
        return n;
    }
    if n == 1 {
        return 0;
    }
    if line[n - 2] != 13 {
        return n - 1;
    }
    n - 2
}

// The sum of bytes, kept to eight bits.
pub fn sum(bytes: &[u8]) -> u8
    ensures { result ≡ total bytes.now % 256 }
{
    let mut s: u8 = 0;
    for i in 0..bytes.len() {
        s = s.wrapping_add(bytes[i]);
    }
    s
}

// Two bytes as a number, high first.
pub fn word(high: u8, low: u8) -> u16
    ensures { result ≡ word_from high low }
{
    u16::from_be_bytes([high, low])
}

// The line of a refusal.
#[tactic(auto, unfolding(crate::specs::Record::data32, laws::specs::Tab::tab, laws::specs::Tab::from))]
pub fn refusal(parsed: Result<Record, LineError>) -> Line
    ensures { result ≡ refused parsed }
{
    Line {
        parsed,
        data: [0u8; Record::MAX],
    }
}
