// The lines of a text: a line ends with its LF, or where the text ends.
ghost use Rattle.std.specs.Prelude.{◌≡◌, ◌+◌, ◌<◌, ◌≤◌, min, length};
ghost use Rattle.ihex_file.specs.Lines.{end_of};

const LF: u8 = b'\n';

// The index from `at` on of the first LF, or the text's length. It is not the line's end: a loop that hands back `i + 1` counts two numbers.
fn lf_from(text: &[u8], at: usize) -> usize
    ensures found { result < length text.now → result + 1 ≡ end_of text.now at }
    ensures none { length text.now ≤ result → length text.now ≡ end_of text.now at }
    ensures bounds { (min at (length text.now) ≤ result) × (result ≤ length text.now) }
{
    for i in at..text.len() {
        if text[i] == LF {
            return i;
        }
    }
    text.len()
}

// Where the line ends that begins at an index: after its LF, or at the end of the text.
pub fn line_end(text: &[u8], at: usize) -> usize
    ensures value { result ≡ end_of text.now at }
    ensures within { result ≤ length text.now }
    ensures after { min (at + 1) (length text.now) ≤ result }
{
    let found = lf_from(text, at);
    if found < text.len() {
        return found + 1;
    }
    text.len()
}
