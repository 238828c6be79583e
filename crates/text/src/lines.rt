// The lines of text of the program for UF2 arrivals, put at the start of a lent array.
ghost use Rattle.std.specs.Prelude.{◌≡◌, ◌≤◌, length};
ghost use Rattle.io.specs.Counts.{IsPrefixLen};
ghost use Rattle.text.specs.Lines.{answer_line, counts_line, state_line};
ghost use Rattle.laws.specs.Over.{over};

use transfer::{State, Transfer};

// The line of an answer.
pub fn answer_line(out: &mut [u8; 80], index: u64, answer: u8, discarded: bool) -> usize
    ensures value { result ≡ length (answer_line index answer discarded) }
    ensures out_after { out.new ≡ over out.old 0 (answer_line index answer discarded) }
    ensures prefix_len { IsPrefixLen result out.new }
{
    let text = [b' ', crate::flag(discarded), b'\n'];
    let a = crate::put_pair(out, index, answer);
    crate::put(out, a, &text)
}

// The last line, by the state's name and its two numbers.
fn counts_line(out: &mut [u8; 80], name: &[u8], total: u32, seen: u32) -> usize
    requires { length name.now ≤ 20 }
    ensures value { result ≡ length (counts_line name.now total seen) }
    ensures out_after { out.new ≡ over out.old 0 (counts_line name.now total seen) }
    ensures prefix_len { IsPrefixLen result out.new }
{
    let a = crate::put(out, 0, name);
    let b = crate::put(out, a, b" total ");
    let c = crate::put_decimal(out, b, total as u64);
    let d = crate::put(out, c, b" seen ");
    let e = crate::put_decimal(out, d, seen as u64);
    crate::put(out, e, b"\n")
}

// The last line.
#[tactic(auto, unfolding(crate::specs::Lines::state_line))]
pub fn state_line(out: &mut [u8; 80], transfer: Transfer) -> usize
    ensures value { result ≡ length (state_line transfer.state) }
    ensures out_after { out.new ≡ over out.old 0 (state_line transfer.state) }
    ensures prefix_len { IsPrefixLen result out.new }
{
    match transfer.state {
        State::Idle => counts_line(out, b"state idle", 0, 0),
        State::Running(run) => counts_line(out, b"state running", run.head.total, run.count),
        State::Done(head) => counts_line(out, b"state done", head.total, head.total),
    }
}
