// A section of Universal Hex, written: its opening 04, its 0A, its data, its filling.
ghost use Rattle.std.specs.Prelude.{◌≡◌, ◌≤◌};
ghost use Rattle.ihex_write.specs.Put.{put_lines};
ghost use Rattle.ihex_data.specs.Pieces.{pieces_of};
ghost use Rattle.ihex_data.specs.Lines.{data_length};
ghost use Rattle.uhex_join.specs.Section.{section_with, section_size};

use ihex_record::Record;

// How many characters a section has whose data has so many.
pub(crate) fn section_len(body: usize) -> usize
    requires { body ≤ 1000000000 }
    ensures { result ≡ section_size body }
{
    let n = 32 + body;
    n + (12 + ihex_write::filling::missing_after(n))
}

// A section with a board's number, its data of one type, after an 04 with an upper half. Returns how many characters it has.
pub fn put_section(
    out: &mut [u8],
    at: usize,
    board: u16,
    kind: u8,
    first: usize,
    text: &[u8],
) -> usize
    ensures value { result ≡ section_size (data_length (pieces_of text.now)) }
    ensures lines { out.new ≡ put_lines out.old at (section_with board kind first (pieces_of text.now)) }
{
    // past the end of the room one place is as good as another, and sums from this one do not wrap
    let from = at.min(out.len());
    ihex_data::put_word(out, from, Record::EXTENDED_LINEAR, first);
    ihex_data::put_word(out, from + 16, Record::BLOCK_START, board as usize);
    let body = ihex_data::put_body(out, from + 32, kind, text);
    let n = 32 + body.len;
    ihex_write::filling::put_fill(out, from + n, n);
    section_len(body.len)
}
