// A file checked before it is sent: what the check answers.
#![tactic(auto)]

pub mod fileregions;

ghost use Rattle.std.specs.Prelude.{◌≡◌, not};
ghost use Rattle.uf2_block.specs.Block.{has_flag};
ghost use Rattle.file_check.specs.Check.{fault_number, checked_number};

use transfer::Answer;
use uf2_block::Block;

// The first thing that is wrong with a file, or a region that it names. Of the numbers the first is the piece, and of two the second is the earlier
// piece that it collides with; of `Missing` it is the number of a block.
#[derive(Clone, Copy)]
pub enum FileFault {
    BadBuffers,
    BadSettings,
    Ragged,
    Empty,
    Refused(usize, Answer),
    OtherFamily(usize),
    OtherTotal(usize),
    OtherKind(usize),
    SameNumber(usize, usize),
    Overlap(usize, usize),
    Missing(usize),
    Guarded(usize),
}

impl FileFault {
    // The number of what is wrong: a refused piece has that of its answer.
    pub fn number(self) -> u8
        ensures { result ≡ fault_number self }
    {
        match self {
            FileFault::BadBuffers => 1,
            FileFault::BadSettings => 2,
            FileFault::Ragged => 80,
            FileFault::Empty => 81,
            FileFault::Refused(_, answer) => answer.number(),
            FileFault::OtherFamily(_) => 82,
            FileFault::OtherTotal(_) => 83,
            FileFault::OtherKind(_) => 84,
            FileFault::SameNumber(_, _) => 85,
            FileFault::Overlap(_, _) => 86,
            FileFault::Missing(_) => 87,
            FileFault::Guarded(_) => 88,
        }
    }
}

// The number of what a file comes to: 0 for a valid file.
pub fn number(checked: Result<(), FileFault>) -> u8
    ensures { result ≡ checked_number checked }
{
    match checked {
        Ok(()) => 0,
        Err(fault) => fault.number(),
    }
}

// Is an arrival data? Any other is a comment.
pub fn is_data(arrival: &[u8]) -> bool
    ensures { result ≡ not (has_flag arrival.now 0x1) }
{
    uf2_block::field(arrival, 8) / Block::FLAG_NOT_MAIN_FLASH % 2 != 1
}
