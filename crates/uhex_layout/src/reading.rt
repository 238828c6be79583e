// A hex reader from its bytes. Every byte slice is read; `readers` has the layout.
ghost use Rattle.std.specs.Prelude.{◌≡◌, length};
ghost use Rattle.uhex_layout.specs.Readers.{boards_from, state_at, fields_from, reader_from};

use crate::READER;
use uhex_effects::Reader;
use uhex_grammar::{Boards, ReaderState};

// Of V1 and of V2, each a flag.
fn boards(v1: u8, v2: u8) -> Boards
    ensures { result ≡ boards_from v1 v2 }
{
    Boards {
        v1: v1 != 0,
        v2: v2 != 0,
    }
}

// Where a reader of 16 bytes stands.
#[tactic(auto, using(laws::proofs::BytesLaws::number_two))]
fn state_at(bytes: &[u8]) -> ReaderState
    requires { length bytes.now ≡ 16 }
    ensures { result ≡ state_at bytes.now }
{
    let half = u16::from_le_bytes([bytes[10], bytes[11]]);
    crate::states::state_from(bytes[8], bytes[9], half)
}

// The reader that 16 bytes are.
#[tactic(auto, using(crate::proofs::Read::read_fields, laws::proofs::BytesLaws::number_two), unfolding(crate::specs::Readers::fields_from))]
fn fields(bytes: &[u8]) -> Reader
    requires { length bytes.now ≡ 16 }
    ensures { result ≡ fields_from bytes.now }
{
    Reader {
        own: u16::from_le_bytes([bytes[0], bytes[1]]),
        offset: uf2_block::field(bytes, 4),
        state: state_at(bytes),
        upper: u16::from_le_bytes([bytes[2], bytes[3]]),
        sections_seen: boards(bytes[12], bytes[13]),
        data_seen: boards(bytes[14], bytes[15]),
    }
}

// The reader that bytes are.
#[tactic(auto, using(crate::proofs::Read::read_good), unfolding(crate::specs::Readers::reader_from))]
pub fn read_reader(bytes: &[u8]) -> Reader
    ensures { result ≡ reader_from bytes.now }
{
    if bytes.len() != READER {
        return Reader::fresh(0);
    }
    if 5 < bytes[8] {
        return Reader::fresh(0);
    }
    fields(bytes)
}
