// The calls for Universal Hex. A reader is bytes in the layout of `readers`.
ghost use Rattle.std.specs.Prelude.{◌≡◌};
ghost use Rattle.uhex_effects.specs.Reader.{fresh_of};
ghost use Rattle.uhex_layout.specs.Readers.{reader_written};
ghost use Rattle.call_bytes.specs.HexCalls.{line_return, line_call_of};

use uhex_effects::Reader;

// A fresh reader of a board, where there are bytes for it.
#[unsafe(no_mangle)]
pub extern "C" fn uhex_new(own: u16, reader: &mut [u8])
    ensures { reader.new ≡ reader_written reader.old (fresh_of own) }
{
    uhex_layout::write_reader(reader, Reader::fresh(own));
}

// One line as it is handed, its ending included: the answer's number, and 256 times the position of a bad digit.
#[unsafe(no_mangle)]
pub extern "C" fn uhex_line(reader: &mut [u8], line: &[u8], image: &mut [u8]) -> u32
    ensures { line_return result reader.new image.new ≡ line_call_of reader.old line.now image.old }
{
    call_bytes::hex::line(reader, line, image)
}
