// What the call for a file returns and writes, as bytes.
ghost use Rattle.std.specs.Prelude.{◌≡◌};
ghost use Rattle.checkapi.specs.CheckBytes.{piece_told, other_told, numbers_over, call_return, check_call};

use file_check::FileFault;

// The bytes of what is told.
const TOLD: usize = 16;

const WORD: usize = 4294967296;

// The piece with which something is wrong; of a missing block its number.
fn piece_told(x: Result<(), FileFault>) -> usize
    ensures { result ≡ piece_told x }
{
    match x {
        Ok(()) => 0,
        Err(FileFault::BadBuffers) => 0,
        Err(FileFault::BadSettings) => 0,
        Err(FileFault::Ragged) => 0,
        Err(FileFault::Empty) => 0,
        Err(FileFault::Refused(i, _)) => i,
        Err(FileFault::OtherFamily(i)) => i,
        Err(FileFault::OtherTotal(i)) => i,
        Err(FileFault::OtherKind(i)) => i,
        Err(FileFault::SameNumber(i, _)) => i,
        Err(FileFault::Overlap(i, _)) => i,
        Err(FileFault::Missing(k)) => k,
        Err(FileFault::Guarded(i)) => i,
    }
}

// The earlier piece that it collides with.
fn other_told(x: Result<(), FileFault>) -> usize
    ensures { result ≡ other_told x }
{
    match x {
        Err(FileFault::SameNumber(_, j)) => j,
        Err(FileFault::Overlap(_, j)) => j,
        _ => 0,
    }
}

// Two numbers of 64 bits, the lowest byte first.
fn put_numbers(told: &mut [u8], piece: usize, other: usize)
    ensures { told.new ≡ numbers_over told.old piece other }
{
    let low = piece % WORD;
    let high = piece / WORD;
    let other_low = other % WORD;
    let other_high = other / WORD;
    uf2_block::put(told, 0, low as u32);
    uf2_block::put(told, 4, high as u32);
    uf2_block::put(told, 8, other_low as u32);
    uf2_block::put(told, 12, other_high as u32);
}

// What a call returns of what a file comes to, which it writes. Without bytes for that nothing is written.
pub fn tell(found: Result<(), FileFault>, told: &mut [u8]) -> u32
    ensures { call_return result told.new ≡ check_call found told.old }
{
    if told.len() != TOLD {
        return 1;
    }
    let piece = piece_told(found);
    let other = other_told(found);
    put_numbers(told, piece, other);
    u32::from(file_check::number(found))
}
