// Reads lines of Universal Hex from standard input for one board and prints the answer to each: a board image of 262,144 bytes.
#![tactic(auto)]

ghost use Rattle.std.specs.Prelude.{◌+◌, ◌≤◌, length, IfOk, IfErr, ◌≡◌};

use std::env::{Env, FillError};
use std::io;
use uhex_effects::Reader;
use uhex_grammar::{Answer, Boards};

// The bytes of the input that count, one more than a file may have: what comes after them lies behind a line that is answered 36, behind
// an earlier failure, or behind the 01.
const INPUT: usize = Reader::FILE + 1;

// The bytes of the board image, and of the text that waits to be written.
const IMAGE: usize = 262144;

const WAITING: usize = 65536;

// The board that the first argument names, or V1 where there is none.
fn own_board(rt: &impl Env) -> Option<u16> {
    let mut name = [0u8; 2];
    let n = match rt.arg(1, &mut name) {
        Ok(n) => n,
        Err(FillError::NotPresent) => return Some(Boards::V1),
        Err(FillError::TooLong) => return None,
    };
    match &name[..n] {
        b"V1" => Some(Boards::V1),
        b"V2" => Some(Boards::V2),
        _ => None,
    }
}

// Where so many bytes more go in the text that waits to be written: behind the used ones, or at the start once these are written.
fn room(rt: &impl Print, waiting: &[u8], used: usize, n: usize) -> io::Result<usize>
    requires { (used ≤ length waiting.now) × (n ≤ length waiting.now) }
    ensures { IfOk result (λ at. at + n ≤ length waiting.now) }
{
    if waiting.len() - used < n {
        rt.write_all(&waiting[..used])?;
        return Ok(0);
    }
    Ok(used)
}

// Adds the line of an answer to the text that waits, and answers how many of its bytes are used.
fn add(
    rt: &impl Print,
    waiting: &mut [u8],
    used: usize,
    index: u64,
    answer: Answer,
) -> io::Result<usize>
    requires { (used ≤ length waiting.old) × (80 ≤ length waiting.old) }
    ensures used { IfOk result (λ n. n ≤ length waiting.old) }
    ensures kept { IfErr result (λ _. waiting.new ≡ waiting.old) }
{
    let mut text = [0u8; 80];
    let n = text::hex_answer::hex_answer_line(&mut text, index, answer);
    let at = room(rt, waiting, used, n)?;
    let e = at + n;
    waiting[at..e].copy_from_slice(&text[..n]);
    Ok(e)
}

// Answers every line of the input. A line is handed with its ending.
// Kept, no plainer: a step is one line, which may have any length.
fn run(
    rt: &impl Print,
    input: &[u8],
    own: u16,
    image: &mut [u8],
    waiting: &mut [u8],
) -> io::Result<Reader>
    requires { 80 ≤ length waiting.old }
{
    let mut used: usize = 0;
    let mut reader = Reader::fresh(own);
    let mut at: usize = 0;
    let mut index: u64 = 0;
    while at < input.len() {
        let e = ihex_file::lines::line_end(input, at);
        let read = uhex_reader::line(reader, &input[at..e], image);
        let answer = read.answer;
        reader = read.reader;
        used = add(rt, waiting, used, index, answer)?;
        at = e;
        index += 1;
    }
    rt.write_all(&waiting[..used])?;
    Ok(reader)
}

// Kept, no plainer: receive has one of this shape for a transfer; one for both would take the line and its length as parameters.
fn print_state(rt: &impl Print, reader: Reader) -> io::Result<()> {
    let mut text = [0u8; 128];
    let n = text::hex_state::hex_state_line(&mut text, reader);
    rt.write_all(&text[..n])
}

// Reads the input, and answers every line of it.
fn session(
    rt: &(impl Input + Print),
    own: u16,
    input: &mut [u8],
    image: &mut [u8],
    waiting: &mut [u8],
) -> io::Result<Reader>
    requires { 80 ≤ length waiting.old }
{
    let n = reading::read_full(&mut rt.reader(), input)?;
    run(rt, &input[..n], own, image, waiting)
}

// The same with arrays, whose lengths their types say.
fn with_arrays(
    rt: &(impl Input + Print),
    own: u16,
    input: &mut [u8; INPUT],
    image: &mut [u8; IMAGE],
    waiting: &mut [u8; WAITING],
) -> io::Result<()> {
    let reader = session(rt, own, input, image, waiting)?;
    print_state(rt, reader)
}

fn main(rt: HostRuntime) -> io::Result<()> {
    let Some(own) = own_board(&rt) else {
        return rt.write_all(b"board is V1 or V2\n");
    };
    // the whole input at once, so that every line is handed as it is, however long
    let mut input = [0u8; INPUT];
    let mut image = [0xFFu8; IMAGE];
    let mut waiting = [0u8; WAITING];
    rt.write_all(b"line answer\n")?;
    with_arrays(&rt, own, &mut input, &mut image, &mut waiting)
}
