// The reader of Universal Hex, a line at a time, for one board.
#![tactic(auto)]

pub mod live;
pub mod replies;

ghost use Rattle.std.specs.Prelude.{◌≡◌};
ghost use Rattle.uhex_grammar.specs.Answers.{number_of};
ghost use Rattle.uhex_effects.specs.Reader.{bad_failure, bad_reader};
ghost use Rattle.uhex_reader.specs.Line.{line_outcome, halt_of, line_of, line_number};

use crate::replies::Reply;
use uhex_effects::Reader;
use uhex_grammar::{Answer, Boards, ReaderState};

// The answer of a reader that reads no further: a failed one repeats its own, and after the end there is one.
fn halted(state: ReaderState) -> Option<Answer>
    ensures { result ≡ halt_of state }
{
    match state {
        ReaderState::Ended => Some(Answer::AfterEnd),
        ReaderState::Failed(failure) => Some(failure.answer),
        _ => None,
    }
}

// A remembered failure that cannot be.
#[tactic(auto, unfolding(uhex_effects::specs::Reader::bad_failure))]
fn bad_failure(state: ReaderState) -> bool
    ensures { result ≡ bad_failure state }
{
    match state {
        ReaderState::Failed(failure) => !failure.answer.is_kept(),
        _ => false,
    }
}

// Row 18.
#[tactic(auto, unfolding(uhex_effects::specs::Reader::bad_reader))]
fn is_bad(reader: Reader) -> bool
    ensures { result ≡ bad_reader reader }
{
    let bad_board = !((reader.own == Boards::V1) | (reader.own == Boards::V2));
    let past = Reader::FILE < reader.offset as usize;
    bad_board | past | bad_failure(reader.state)
}

// Reads one line as it is handed, its ending included.
#[tactic(auto, unfolding(crate::specs::Line::halt_line, crate::specs::Line::line_of, crate::specs::Line::line_number))]
pub fn line(reader: Reader, line: &[u8], image: &mut [u8]) -> Reply
    ensures image_after { line_outcome result.reader result.answer image.new ≡ line_of reader line.now image.old }
    ensures number { number_of result.answer ≡ line_number reader line.now image.old }
{
    if (image.len() < 1) | (Reader::IMAGE < image.len()) {
        return Reply {
            reader,
            answer: Answer::BadImage,
        };
    }
    if is_bad(reader) {
        return Reply {
            reader,
            answer: Answer::BadReader,
        };
    }
    match halted(reader.state) {
        None => crate::live::live(reader, line, image),
        Some(answer) => Reply { reader, answer },
    }
}
