// Universal Hex: the answers to a line, the boards, where a reader stands, and what a record can be there.
#![tactic(auto)]

pub mod roles;

ghost use Rattle.std.specs.Prelude.{◌≡◌, Err};
ghost use Rattle.uhex_grammar.specs.Answers.{number_of, position_of, is_failure, is_kept, refusal_of};
ghost use Rattle.uhex_grammar.specs.Boards.{no_boards, has_board, with_board, both_boards};

use ihex_record::{LineError, Record};

// The answers to a line, by their numbers from 18 to 36. The names are 01's.
#[derive(Clone, Copy)]
pub enum Answer {
    BadReader,
    BadImage,
    NoColon,
    BadShape,
    // the position of the first bad character, counted from 0 at the colon
    BadDigit(u16),
    TooLong,
    BadLength,
    BadSum,
    OutOfPlace,
    Unaligned,
    Repeated,
    Crosses,
    MissingBoard,
    AfterEnd,
    Outside,
    Stored,
    Passed,
    Ended,
    FileTooLong,
}

// What a failed reader remembers.
// Kept, contract: claims name a failure's `answer` (`BadPosition`, `FailedRepeats`), so it stays a struct of one field.
#[derive(Clone, Copy)]
pub struct Failure {
    pub answer: Answer,
}

// Which of V1 and V2.
#[derive(Clone, Copy)]
pub struct Boards {
    pub v1: bool,
    pub v2: bool,
}

// Where a reader stands: between sections, after a section's opening 04, in the section of a board, in it after its first 0C, after
// the 01, or failed.
#[derive(Clone, Copy)]
pub enum ReaderState {
    Between,
    Opened,
    Inside(u16),
    Padded(u16),
    Ended,
    Failed(Failure),
}

// What a record is where the reader stands, if it is allowed there.
#[derive(Clone, Copy)]
pub enum Role {
    // the 04 that opens a section
    Opening,
    // the 0A that names its board
    Naming,
    // a further 04
    Address,
    // data for a board
    Data(u16),
    // an 0C in the section of a board
    Padding(u16),
    // an 0E
    Other,
    // the 0B that ends a section
    Closing,
    // the 01 that ends the file
    Ending,
}

impl Boards {
    // Kept, contract: numbers and no enum: a section may name any board (`place_after`, `OtherSectionsPass`).
    pub const V1: u16 = 0x9900;

    pub const V2: u16 = 0x9903;

    pub fn none() -> Boards
        ensures { result ≡ no_boards }
    {
        Boards {
            v1: false,
            v2: false,
        }
    }

    pub fn has(self, board: u16) -> bool
        ensures { result ≡ has_board self board }
    {
        ((board == Boards::V1) & self.v1) | ((board == Boards::V2) & self.v2)
    }

    // These and a further one; a board that is neither adds nothing.
    #[tactic(auto, unfolding(crate::specs::Boards::with_board))]
    pub fn with(self, board: u16) -> Boards
        ensures { result ≡ with_board self board }
    {
        Boards {
            v1: self.v1 | (board == Boards::V1),
            v2: self.v2 | (board == Boards::V2),
        }
    }

    pub fn both(self) -> bool
        ensures { result ≡ both_boards self }
    {
        self.v1 & self.v2
    }
}

impl Answer {
    pub fn number(self) -> u8
        ensures { result ≡ number_of self }
    {
        match self {
            Answer::BadReader => 18,
            Answer::BadImage => 19,
            Answer::NoColon => 20,
            Answer::BadShape => 21,
            Answer::BadDigit(_) => 22,
            Answer::TooLong => 23,
            Answer::BadLength => 24,
            Answer::BadSum => 25,
            Answer::OutOfPlace => 26,
            Answer::Unaligned => 27,
            Answer::Repeated => 28,
            Answer::Crosses => 29,
            Answer::MissingBoard => 30,
            Answer::AfterEnd => 31,
            Answer::Outside => 32,
            Answer::Stored => 33,
            Answer::Passed => 34,
            Answer::Ended => 35,
            Answer::FileTooLong => 36,
        }
    }

    // The value of the answer that has one: a bad digit's position; 0 stands for none.
    pub fn position(self) -> u16
        ensures { result ≡ position_of self }
    {
        match self {
            Answer::BadDigit(position) => position,
            _ => 0,
        }
    }

    // One of the answers that make a reader failed.
    pub fn is_failure(self) -> bool
        ensures { result ≡ is_failure self }
    {
        let n = self.number();
        ((20 <= n) & (n <= 30)) | (n == 36)
    }

    // A failure that a reader may remember: a bad digit's position is 1 to 520.
    #[tactic(auto, unfolding(crate::specs::Answers::is_kept))]
    pub fn is_kept(self) -> bool
        ensures { result ≡ is_kept self }
    {
        let n = self.number();
        let p = self.position();
        self.is_failure() & !((n == 22) & !((1 <= p) & (p <= 520)))
    }
}

// The answer to a line whose text is refused.
impl From<LineError> for Answer {
    ghost from_gives = { λ error answer. answer ≡ refusal_of (Err error) };

    fn from(error: LineError) -> Answer {
        match error {
            LineError::NoColon => Answer::NoColon,
            LineError::BadShape => Answer::BadShape,
            LineError::BadDigit(position) => Answer::BadDigit(position),
            LineError::TooLong => Answer::TooLong,
            LineError::BadLength => Answer::BadLength,
            LineError::BadSum => Answer::BadSum,
        }
    }
}

// The same of what a line says. A good record is refused by nothing: nobody asks it, and it is told as the first refusal.
pub fn refusal(parsed: Result<Record, LineError>) -> Answer
    ensures value { result ≡ refusal_of parsed }
    ensures number { number_of result ≡ number_of (refusal_of parsed) }
{
    match parsed {
        Ok(_) => Answer::NoColon,
        Err(error) => Answer::from(error),
    }
}
