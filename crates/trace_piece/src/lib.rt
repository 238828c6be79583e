// One piece of a trace by itself: whether it is a record, whether it says what we answer, what comes of it, and where a replay stops then.
#![tactic(auto)]

pub mod comparing;
pub mod ends;

ghost use Rattle.std.specs.Prelude.{◌≡◌};
ghost use Rattle.trace_piece.specs.Piece.{is_bad, agrees, compared_of, stop_of};

use transfer::Answer;

// The bytes of a record: one with answer and "discarded", and the arrival.
pub const RECORD: usize = 513;

// Why a piece is not replayed: it is no record, or what it records is not what we answer.
#[derive(Clone, Copy, PartialEq, Eq)]
pub enum PieceError {
    Bad,
    Differs,
}

// What stops a replay, with the index of its piece from 0.
#[derive(Clone, Copy, PartialEq, Eq)]
pub enum Stop {
    Bad(usize),
    Differs(usize),
}

// Is a piece of another length than a record's, or are there stray bits?
#[tactic(auto, unfolding(crate::specs::Piece::is_bad))]
pub fn is_bad(piece: &[u8]) -> bool
    ensures { result ≡ is_bad piece.now }
{
    piece.len() != RECORD || piece[0] % 4 != 0
}

// Is what a record's first byte says our answer and our "discarded"?
#[tactic(auto, unfolding(crate::specs::Piece::agrees))]
fn agrees(recorded: u8, answer: Answer, discarded: bool) -> bool
    ensures { result ≡ agrees recorded answer discarded }
{
    recorded / 8 == answer.number() && recorded / 4 % 2 == u8::from(discarded)
}

// What comes of a record, by its first byte and what we answer.
pub fn compared(recorded: u8, answer: Answer, discarded: bool) -> Result<(), PieceError>
    ensures { result ≡ compared_of recorded answer discarded }
{
    if agrees(recorded, answer, discarded) {
        Ok(())
    } else {
        Err(PieceError::Differs)
    }
}

// Where a replay stops, by what came of the piece at an index.
pub fn stop_of(answer: Result<(), PieceError>, index: usize) -> Option<Stop>
    ensures { result ≡ stop_of answer index }
{
    match answer {
        Ok(()) => None,
        Err(PieceError::Bad) => Some(Stop::Bad(index)),
        Err(PieceError::Differs) => Some(Stop::Differs(index)),
    }
}
