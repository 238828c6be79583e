// One Universal Hex file from two plain Intel Hex files, one for V1 and one for V2.
#![tactic(auto)]

pub mod answers;
pub mod sections;

ghost use Rattle.std.specs.Prelude.{◌≡◌};
ghost use Rattle.ihex_data.specs.Pieces.{pieces_of};
ghost use Rattle.ihex_data.specs.Lines.{first_upper};
ghost use Rattle.uhex_join.specs.Text.{file_text};
ghost use Rattle.uhex_join.specs.Join.{join_call, join_number, Fits, join_of};
ghost use Rattle.laws.specs.Numbered.{numbered};
ghost use Rattle.laws.specs.Over.{over};

use crate::answers::{Refusal, refused};
use crate::sections::{put_section, section_len};
use ihex_file::Plain;
use ihex_record::Record;
use uhex_grammar::{Answer, Boards};

// Both sections and the 01, for which there is room.
fn put_file(out: &mut [u8], v1: &[u8], v2: &[u8], first: usize, second: usize)
    requires first_value { (first ≡ first_upper (pieces_of v1.now)) × (second ≡ first_upper (pieces_of v2.now)) }
    requires room { Fits (file_text (pieces_of v1.now) (pieces_of v2.now)) out.old }
    ensures { out.new ≡ over out.old 0 (file_text (pieces_of v1.now) (pieces_of v2.now)) }
{
    let middle = put_section(out, 0, Boards::V1, Record::DATA, first, v1);
    let len = put_section(out, middle, Boards::V2, Record::CUSTOM_DATA, second, v2);
    ihex_write::put_record(out, middle + len, Record::END_OF_FILE, 0, &[]);
}

// Writes one Universal Hex file from a plain Intel Hex file for V1 and one for V2.
pub fn join(v1: &[u8], v2: &[u8], out: &mut [u8]) -> Result<u32, Refusal>
    ensures { numbered join_number (join_call result out.new) ≡ numbered join_number (join_of v1.now v2.now out.old) }
{
    let a = ihex_data::scan_file(v1);
    refused(Boards::V1, a.verdict)?;
    let b = ihex_data::scan_file(v2);
    refused(Boards::V2, b.verdict)?;
    let total = section_len(a.len) + (section_len(b.len) + 12);
    if (Plain::FILE < total) | (out.len() < total) {
        return Err(Refusal {
            board: 0,
            line: 0,
            answer: Answer::FileTooLong,
        });
    }
    put_file(out, v1, v2, a.first, b.first);
    Ok(total as u32)
}
