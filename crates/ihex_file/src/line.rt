// A line of a plain Intel Hex file: refused, or its record.
ghost use Rattle.std.specs.Prelude.{◌≡◌};
ghost use Rattle.laws.specs.Numbered.{numbered};
ghost use Rattle.ihex_file.specs.Line.{taken_number, line_taken};

use crate::{Plain, Taken};
use ihex_record::{LineError, Record};
use uhex_grammar::Answer;

// A line of n bytes, by what its text says, and a record's first two data bytes as a number.
#[tactic(auto, unfolding(crate::specs::Line::line_taken))]
pub fn line(
    plain: Plain,
    n: usize,
    parsed: Result<Record, LineError>,
    word: u16,
) -> Result<Taken, Answer>
    ensures { numbered taken_number result ≡ numbered taken_number (line_taken plain n parsed word) }
{
    if plain.ended {
        return Err(Answer::AfterEnd);
    }
    let end = n.saturating_add(plain.offset as usize);
    if Plain::FILE < end {
        return Err(Answer::FileTooLong);
    }
    let rec = parsed?;
    let moved = Plain {
        offset: end as u32,
        ..plain
    };
    crate::records::record(moved, rec.kind, rec.address, rec.len, word)
}
