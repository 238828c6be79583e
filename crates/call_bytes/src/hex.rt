// What the call for a line of Universal Hex does. A reader is bytes in the layout of `readers`.
ghost use Rattle.std.specs.Prelude.{◌≡◌};
ghost use Rattle.call_bytes.specs.HexCalls.{line_return, line_call_of};

// One line as it is handed, its ending included: the answer's number, and 256 times the position of a bad digit.
pub fn line(reader: &mut [u8], line: &[u8], image: &mut [u8]) -> u32
    ensures { line_return result reader.new image.new ≡ line_call_of reader.old line.now image.old }
{
    let was = uhex_layout::reading::read_reader(reader);
    let read = uhex_reader::line(was, line, image);
    let answer = read.answer;
    let failed = uhex_layout::kept::has_failed(was.state);
    let changed = uhex_layout::kept::changes(failed, answer);
    uhex_layout::kept::keep_reader(reader, changed, read.reader);
    answer.number() as u32 + 256 * (answer.position() as u32)
}
