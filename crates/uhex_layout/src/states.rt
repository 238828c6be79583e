// Where a hex reader stands, from the numbers that its bytes hold; `readers` has the layout.
ghost use Rattle.std.specs.Prelude.{◌≡◌};
ghost use Rattle.uhex_layout.specs.Readers.{answer_from, reader_state_from};

use uhex_grammar::{Answer, Failure, ReaderState};

// The answer of a number. Any other number is read as 18, which no reader remembers.
#[tactic(auto, unfolding(crate::specs::Readers::answer_from, crate::specs::Readers::all_answers))]
fn answer(n: u8, position: u16) -> Answer
    ensures { result ≡ answer_from n position }
{
    match n {
        19 => Answer::BadImage,
        20 => Answer::NoColon,
        21 => Answer::BadShape,
        22 => Answer::BadDigit(position),
        23 => Answer::TooLong,
        24 => Answer::BadLength,
        25 => Answer::BadSum,
        26 => Answer::OutOfPlace,
        27 => Answer::Unaligned,
        28 => Answer::Repeated,
        29 => Answer::Crosses,
        30 => Answer::MissingBoard,
        31 => Answer::AfterEnd,
        32 => Answer::Outside,
        33 => Answer::Stored,
        34 => Answer::Passed,
        35 => Answer::Ended,
        36 => Answer::FileTooLong,
        _ => Answer::BadReader,
    }
}

// Any kind over 4 is read as a failure.
#[tactic(auto, unfolding(crate::specs::Readers::reader_state_from))]
pub fn state_from(kind: u8, failure: u8, half: u16) -> ReaderState
    ensures { result ≡ reader_state_from kind failure half }
{
    match kind {
        0 => ReaderState::Between,
        1 => ReaderState::Opened,
        2 => ReaderState::Inside(half),
        3 => ReaderState::Padded(half),
        4 => ReaderState::Ended,
        _ => ReaderState::Failed(Failure {
            answer: answer(failure, half),
        }),
    }
}
