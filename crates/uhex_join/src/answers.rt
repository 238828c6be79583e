// What comes of two Intel Hex files that are made one: the number of bytes that are written, or a refusal; and it as one number.
ghost use Rattle.std.specs.Prelude.{◌≡◌, ◌≤◌};
ghost use Rattle.uhex_join.specs.Answer.{joined_number, refused_by};
ghost use Rattle.uhex_join.specs.Result.{board_code, refusal_result, joined_result};

use ihex_file::BadLine;
use uhex_grammar::{Answer, Boards};

// Why nothing is written: the board whose file is refused, the line's index from 0 (for a missing 01 and for 30 the number of its lines), and
// the answer. Where the output is too long, board and line are 0.
#[derive(Clone, Copy)]
pub struct Refusal {
    pub board: u16,
    pub line: u32,
    pub answer: Answer,
}

// The number of a refusal, and 0 for a file that is written.
pub fn number(joined: Result<u32, Refusal>) -> u8
    ensures { result ≡ joined_number joined }
{
    match joined {
        Ok(_) => 0,
        Err(refusal) => refusal.answer.number(),
    }
}

// A board's file, or its refusal.
pub fn refused(board: u16, verdict: Result<(), BadLine>) -> Result<(), Refusal>
    ensures { result ≡ refused_by board verdict }
{
    match verdict {
        Ok(()) => Ok(()),
        Err(bad) => Err(Refusal {
            board,
            line: bad.line,
            answer: bad.answer,
        }),
    }
}

// 1 for V1, 2 for V2, 0 for any other.
fn board_code(board: u16) -> u64
    ensures value { result ≡ board_code board }
    ensures small { result ≤ 2 }
{
    match board {
        Boards::V1 => 1,
        Boards::V2 => 2,
        _ => 0,
    }
}

// A refusal as one number.
#[tactic(auto, unfolding(crate::specs::Result::refusal_result))]
fn refusal_result(refusal: Refusal) -> u64
    ensures { result ≡ refusal_result refusal }
{
    let answer = refusal.answer;
    let number = answer.number() as u64;
    let position = answer.position() as u64;
    let board = board_code(refusal.board);
    let line = refusal.line as u64;
    number + (256 * position + (16777216 * board + 4294967296 * line))
}

// What comes of two files as one number.
pub fn joined_result(joined: Result<u32, Refusal>) -> u64
    ensures { result ≡ joined_result joined }
{
    match joined {
        Ok(n) => 4294967296 * (n as u64),
        Err(refusal) => refusal_result(refusal),
    }
}
