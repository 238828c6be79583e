// A record of a plain Intel Hex file, of types 00 to 05: data, an address, a start, the end, or out of place.
ghost use Rattle.std.specs.Prelude.{◌≡◌};
ghost use Rattle.laws.specs.Numbered.{numbered};
ghost use Rattle.ihex_file.specs.Line.{passed, taken_number, data_taken, record_taken};

use crate::{Data, Plain, Taken};
use ihex_record::Record;
use uhex_grammar::Answer;

// the types that only plain Intel Hex has: extended segment address, start segment address, start linear address
const EXTENDED_SEGMENT: u8 = 2;

const START_SEGMENT: u8 = 3;

const START_LINEAR: u8 = 5;

// A record that gives no data.
fn passed(plain: Plain) -> Result<Taken, Answer>
    ensures { result ≡ passed plain }
{
    Ok(Taken { plain, given: None })
}

// A 00.
#[tactic(auto, unfolding(crate::specs::Line::data_taken))]
fn data(plain: Plain, address: u16, len: u8) -> Result<Taken, Answer>
    ensures { result ≡ data_taken plain address len }
{
    if Plain::REACH < address as usize + len as usize {
        return Err(Answer::Crosses);
    }
    if len == 0 {
        return passed(plain);
    }
    let address = plain.base as usize + address as usize;
    Ok(Taken {
        plain,
        given: Some(Data { address, len }),
    })
}

// A record, its first two data bytes as a number.
#[tactic(auto, unfolding(crate::specs::Line::record_taken))]
pub fn record(plain: Plain, kind: u8, address: u16, len: u8, word: u16) -> Result<Taken, Answer>
    ensures { numbered taken_number result ≡ numbered taken_number (record_taken plain kind address len word) }
{
    match (kind, len) {
        (Record::DATA, _) => data(plain, address, len),
        (Record::END_OF_FILE, 0) => passed(plain.with_end()),
        (EXTENDED_SEGMENT, 2) => passed(plain.with_base(16 * (word as u32))),
        (Record::EXTENDED_LINEAR, 2) => passed(plain.with_base(65536 * (word as u32))),
        (START_SEGMENT | START_LINEAR, 4) => passed(plain),
        _ => Err(Answer::OutOfPlace),
    }
}
