// A line of Universal Hex for a reader that is neither failed nor at the end.
ghost use Rattle.std.specs.Prelude.{◌≡◌};
ghost use Rattle.uhex_reader.specs.Outcome.{line_outcome};
ghost use Rattle.uhex_reader.specs.Live.{live_line};

use crate::replies::Reply;
use uhex_effects::Reader;
use uhex_grammar::Answer;

// A line for a reader that is neither failed nor at the end.
pub fn live(reader: Reader, line: &[u8], image: &mut [u8]) -> Reply
    ensures { line_outcome result.reader result.answer image.new ≡ live_line reader line.now image.old }
{
    let offset = reader.offset as usize;
    if Reader::FILE < offset {
        return crate::replies::failing(reader, Answer::FileTooLong);
    }
    if Reader::FILE - offset < line.len() {
        return crate::replies::failing(reader, Answer::FileTooLong);
    }
    let end = (offset + line.len()) as u32;
    let read = ihex_record::record_line::read(line);
    match read.parsed {
        Ok(rec) => crate::replies::apply(reader, rec, read.data, end, image),
        Err(error) => crate::replies::failing(reader, Answer::from(error)),
    }
}
