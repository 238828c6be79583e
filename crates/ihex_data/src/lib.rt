// The data of a plain Intel Hex file: read, split where the upper half of its address changes, counted, and written as lines.
#![tactic(auto)]

pub mod cuts;
mod place;

ghost use Rattle.std.specs.Prelude.{◌≡◌, cond, ◌+◌, ◌≤◌, length};
ghost use Rattle.ihex_write.specs.Put.{put_line, put_lines};
ghost use Rattle.ihex_record.specs.Write.{record_line};
ghost use Rattle.ihex_data.specs.Pieces.{piece, split_of, pieces_of};
ghost use Rattle.ihex_data.specs.Lines.{word_bytes, data_lines};
ghost use Rattle.ihex_data.specs.Tally.{tally_piece, tally_all, piece_lines, pieces_lines};
ghost use Rattle.ihex_data.specs.Scan.{body_of, line_pieces, step_of, Walk};

use crate::cuts::{Tally, Uppers};
use crate::place::Place;
use ihex_file::{BadLine, Plain};
use ihex_record::Record;
use uhex_grammar::Answer;

// What a plain file comes to: whether it is fine, the upper half of its first data's address, and how many characters the lines of its data
// have.
// Kept, contract: `body_of` gives `first` and `len` of a refused file too, and `put_section` counts the characters of its lines by them
#[derive(Clone, Copy)]
pub struct Body {
    pub verdict: Result<(), BadLine>,
    pub first: usize,
    pub len: usize,
}

// Where the reading of a plain file stands, and what is known of its pieces.
#[derive(Clone, Copy)]
struct Scan {
    plain: Plain,
    tally: Tally,
}

// One more piece, of n bytes: a record's line has 12 characters, and two for each byte of its data.
#[tactic(auto, unfolding(crate::specs::Tally::tally_piece))]
fn with_piece(tally: Tally, upper: usize, n: usize) -> Tally
    requires { (tally.len ≤ 1073741824) × (n ≤ 32) }
    ensures { result ≡ tally_piece tally upper n }
{
    let first = tally.first_or(upper);
    let more = if tally.changes(upper) { 16 } else { 0 };
    Tally {
        uppers: Some(Uppers {
            first,
            latest: upper,
        }),
        len: tally.len + (more + (12 + 2 * n)),
    }
}

// A record of two bytes of data, with the address field 0.
#[tactic(auto, using(crate::proofs::Tallied::low_word, ihex_write::proofs::Lines::put_record_line))]
pub fn put_word(out: &mut [u8], at: usize, kind: u8, word: usize)
    ensures { out.new ≡ put_line out.old at (record_line kind 0 (word_bytes word)) }
{
    let two = ((word % 65536) as u16).to_be_bytes();
    ihex_write::put_record(out, at, kind, 0, &two);
}

// The lines of a piece, by the two halves of its address, after those of the pieces before it.
fn put_piece(
    out: &mut [u8],
    place: Place,
    tally: Tally,
    upper: usize,
    lower: u16,
    bytes: &[u8],
) -> Tally
    requires { (tally.len ≤ 1073741824) × (length bytes.now ≤ 32) }
    ensures value { result ≡ tally_piece tally upper (length bytes.now) }
    ensures lines { out.new ≡ put_lines out.old (place.at + tally.len) (piece_lines place.kind tally upper lower bytes.now) }
{
    let from = place.at + tally.len;
    let next = with_piece(tally, upper, bytes.len());
    if tally.changes(upper) {
        put_word(out, from, Record::EXTENDED_LINEAR, upper);
        ihex_write::put_record(out, from + 16, place.kind, lower, bytes);
        return next;
    }
    ihex_write::put_record(out, from, place.kind, lower, bytes);
    next
}

// The lines of a record's data, split where its address crosses a multiple of 65,536.
fn put_data(out: &mut [u8], place: Place, tally: Tally, address: usize, bytes: &[u8]) -> Tally
    requires { (tally.len ≤ 1000000000) × (length bytes.now ≤ 32) }
    ensures value { result ≡ tally_all tally (split_of (piece address bytes.now)) }
    ensures lines { out.new ≡ put_lines out.old (place.at + tally.len) (pieces_lines place.kind tally (split_of (piece address bytes.now))) }
{
    let upper = address / Plain::REACH;
    let lower = (address % Plain::REACH) as u16;
    if crate::cuts::crosses(address, bytes.len()) {
        let room = Plain::REACH - address % Plain::REACH;
        let next = put_piece(out, place, tally, upper, lower, &bytes[..room]);
        return put_piece(out, place, next, upper + 1, 0, &bytes[room..]);
    }
    put_piece(out, place, tally, upper, lower, bytes)
}

// A line of a plain file.
fn put_line(out: &mut [u8], place: Place, state: Scan, line: &[u8]) -> Result<Scan, Answer>
    requires { state.tally.len ≤ 1000000000 }
    ensures value { result ≡ step_of state line.now }
    ensures lines { out.new ≡ put_lines out.old (place.at + state.tally.len) (pieces_lines place.kind state.tally (line_pieces state.plain line.now)) }
{
    let read = ihex_record::record_line::read(line);
    let data = read.data;
    let word = ihex_record::word(data[0], data[1]);
    let taken = ihex_file::line::line(state.plain, line.len(), read.parsed, word)?;
    let plain = taken.plain;
    let Some(given) = taken.given else {
        return Ok(Scan { plain, ..state });
    };
    let n = given.len as usize;
    let tally = put_data(out, place, state.tally, given.address, &data[..n]);
    Ok(Scan { plain, tally })
}

// A plain file, the lines of its data written at a place, for which the room may be too short.
fn walk(out: &mut [u8], place: Place, text: &[u8]) -> Body
    ensures { Walk out.old place.at place.kind text.now result out.new }
{
    let mut state = Scan {
        plain: Plain::fresh(),
        tally: Tally::fresh(),
    };
    let mut lines: u32 = 0;
    let mut i = 0;
    // Kept, no plainer: a step is one line, which may have any length
    while i < text.len() {
        let e = ihex_file::lines::line_end(text, i);
        state = match put_line(out, place, state, &text[i..e]) {
            Ok(next) => next,
            Err(answer) => {
                return Body {
                    verdict: Err(BadLine {
                        line: lines,
                        answer,
                    }),
                    first: state.tally.first_or(0),
                    len: state.tally.len,
                };
            }
        };
        lines += 1;
        i = e;
    }
    let tally = state.tally;
    Body {
        verdict: state.plain.close(lines, tally.uppers.is_some()),
        first: tally.first_or(0),
        len: tally.len,
    }
}

// Reads a plain file and writes the lines of its data from `at` on. Where these do not fit they are counted and not written: reading a file
// first and then writing its lines is this function twice.
pub fn put_body(out: &mut [u8], at: usize, kind: u8, text: &[u8]) -> Body
    ensures value { result ≡ body_of text.now }
    ensures most { result.len ≤ 1000000000 }
    ensures lines { out.new ≡ put_lines out.old at (data_lines kind (pieces_of text.now)) }
{
    // past the end of the room one place is as good as another, and sums from this one do not wrap
    let place = Place {
        at: at.min(out.len()),
        kind,
    };
    walk(out, place, text)
}

// What a plain file comes to, with nothing written.
pub fn scan_file(text: &[u8]) -> Body
    ensures value { result ≡ body_of text.now }
    ensures most { result.len ≤ 1000000000 }
{
    let mut none = [0u8; 1];
    put_body(&mut none, 0, Record::DATA, text)
}
