// The line of an answer to a line of Universal Hex, and the text of a reader that failed with an answer.
ghost use Rattle.std.specs.Prelude.{◌≡◌, ◌+◌, ◌≤◌, length};
ghost use Rattle.io.specs.Counts.{IsPrefixLen};
ghost use Rattle.text.specs.HexAnswer.{position_text, hex_answer_line, failed_text};
ghost use Rattle.laws.specs.Over.{over};

use uhex_grammar::Answer;

// " position " and the position of a bad digit; nothing where there is none.
fn put_position(out: &mut [u8], at: usize, position: u16) -> usize
    requires { at + 30 ≤ length out.old }
    ensures value { result ≡ at + length (position_text position) }
    ensures out_after { out.new ≡ over out.old at (position_text position) }
{
    if position == 0 {
        return at;
    }
    let b = crate::put(out, at, b" position ");
    crate::put_decimal(out, b, position as u64)
}

// The line of an answer to a line of Universal Hex.
pub fn hex_answer_line(out: &mut [u8; 80], index: u64, answer: Answer) -> usize
    ensures value { result ≡ length (hex_answer_line index answer) }
    ensures out_after { out.new ≡ over out.old 0 (hex_answer_line index answer) }
    ensures prefix_len { IsPrefixLen result out.new }
{
    let a = crate::put_pair(out, index, answer.number());
    let b = put_position(out, a, answer.position());
    crate::put(out, b, b"\n")
}

// A failed reader, with the number and the position that it remembers.
pub fn put_failed(out: &mut [u8; 128], answer: Answer) -> usize
    ensures value { result ≡ length (failed_text answer) }
    ensures out_after { out.new ≡ over out.old 0 (failed_text answer) }
{
    let a = crate::put(out, 0, b"state failed ");
    let b = crate::put_decimal(out, a, answer.number() as u64);
    put_position(out, b, answer.position())
}
