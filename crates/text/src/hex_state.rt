// The last line for a reader of Universal Hex.
ghost use Rattle.std.specs.Prelude.{◌≡◌, length};
ghost use Rattle.io.specs.Counts.{IsPrefixLen};
ghost use Rattle.text.specs.HexState.{reader_state_text, hex_state_line};
ghost use Rattle.laws.specs.Over.{over};

use uhex_effects::Reader;
use uhex_grammar::ReaderState;

// Where a reader stands.
fn put_reader_state(out: &mut [u8; 128], state: ReaderState) -> usize
    ensures value { result ≡ length (reader_state_text state) }
    ensures out_after { out.new ≡ over out.old 0 (reader_state_text state) }
{
    match state {
        ReaderState::Between => crate::put(out, 0, b"state between"),
        ReaderState::Opened => crate::put(out, 0, b"state opened"),
        ReaderState::Inside(_) => crate::put(out, 0, b"state inside"),
        ReaderState::Padded(_) => crate::put(out, 0, b"state padded"),
        ReaderState::Ended => crate::put(out, 0, b"state ended"),
        ReaderState::Failed(failure) => crate::hex_answer::put_failed(out, failure.answer),
    }
}

// The last line for a reader of Universal Hex.
pub fn hex_state_line(out: &mut [u8; 128], reader: Reader) -> usize
    ensures value { result ≡ length (hex_state_line reader) }
    ensures out_after { out.new ≡ over out.old 0 (hex_state_line reader) }
    ensures prefix_len { IsPrefixLen result out.new }
{
    let v1 = crate::flag(reader.data_seen.v1);
    let v2 = crate::flag(reader.data_seen.v2);
    let text = [
        b' ', b'v', b'1', b' ', v1, b' ', b'v', b'2', b' ', v2, b'\n',
    ];
    let a = put_reader_state(out, reader.state);
    let b = crate::put(out, a, b" offset ");
    let c = crate::put_decimal(out, b, reader.offset as u64);
    crate::put(out, c, &text)
}
