// Hex readers as bytes: how a reader is written. include/uf2_receiver.h has the layout for C; `readerbytes` reads it.
#![tactic(auto)]

pub mod kept;
pub mod reading;
pub mod states;

ghost use Rattle.std.specs.Prelude.{◌≡◌};
ghost use Rattle.uhex_layout.specs.Readers.{state_code_of, reader_bytes, reader_written};

use uhex_effects::Reader;
use uhex_grammar::ReaderState;

// The bytes of a reader.
const READER: usize = 16;

// A reader's state as numbers: the kind, the failure's number, and the section's board or the failure's position; 0 where there is none.
#[derive(Clone, Copy)]
struct StateCode {
    kind: u8,
    failure: u8,
    half: u16,
}

fn state_code(state: ReaderState) -> StateCode
    ensures { result ≡ state_code_of state }
{
    let (kind, failure, half) = match state {
        ReaderState::Between => (0, 0, 0),
        ReaderState::Opened => (1, 0, 0),
        ReaderState::Inside(board) => (2, 0, board),
        ReaderState::Padded(board) => (3, 0, board),
        ReaderState::Ended => (4, 0, 0),
        ReaderState::Failed(failure) => (5, failure.answer.number(), failure.answer.position()),
    };
    StateCode {
        kind,
        failure,
        half,
    }
}

// The bytes that a reader is.
fn reader_bytes(reader: Reader) -> [u8; READER]
    ensures { result ≡ reader_bytes reader }
{
    let code = state_code(reader.state);
    let own = reader.own.to_le_bytes();
    let upper = reader.upper.to_le_bytes();
    let offset = reader.offset.to_le_bytes();
    let half = code.half.to_le_bytes();
    [
        own[0],
        own[1],
        upper[0],
        upper[1],
        offset[0],
        offset[1],
        offset[2],
        offset[3],
        code.kind,
        code.failure,
        half[0],
        half[1],
        u8::from(reader.sections_seen.v1),
        u8::from(reader.sections_seen.v2),
        u8::from(reader.data_seen.v1),
        u8::from(reader.data_seen.v2),
    ]
}

// Writes a reader, where there are bytes for it.
#[tactic(auto, using(crate::proofs::Written::written_copied), unfolding(crate::specs::Readers::reader_written))]
pub fn write_reader(bytes: &mut [u8], reader: Reader)
    ensures { bytes.new ≡ reader_written bytes.old reader }
{
    if bytes.len() != READER {
        return;
    }
    let new = reader_bytes(reader);
    bytes.copy_from_slice(&new);
}
