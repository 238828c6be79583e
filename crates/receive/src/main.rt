// Reads arrivals of 512 bytes from standard input and prints the answer to each: a flash of 32,768 bytes, no RAM, no partition table, Arm
// alone, absolute allowed.
#![tactic(auto)]

ghost use Rattle.std.specs.Prelude.{◌≡◌, IfOk};
ghost use Rattle.std.specs.declared.ops.ControlFlow.TheVariants.{Break};
ghost use Rattle.std.specs.Io.KnownBytes.{IsAtEnd};
ghost use Rattle.transfer.specs.declared.Transfer.{Transfer};

use partitions::Settings;
use std::io;
use std::io::Read;
use std::ops::ControlFlow;
use transfer::Transfer;
use uf2_block::Block;
use uf2_commit::receipts::Receipt;

fn print_answer(rt: &impl Print, index: u64, answer: u8, discarded: bool) -> io::Result<()> {
    let mut text = [0u8; 80];
    let n = text::lines::answer_line(&mut text, index, answer, discarded);
    rt.write_all(&text[..n])
}

// Kept, no plainer: hexlines has one of this shape for a reader; one for both would take the line and its length as parameters.
fn print_state(rt: &impl Print, transfer: Transfer) -> io::Result<()> {
    let mut text = [0u8; 80];
    let n = text::lines::state_line(&mut text, transfer);
    rt.write_all(&text[..n])
}

// Reads one piece and answers it, and goes on with the next transfer or ends with the last one. A short piece is answered as an arrival of a wrong
// length, and is the last: `read_full` stops short only where the input ends.
fn answer_piece<R: Read>(
    rt: &impl Print,
    from: &mut R,
    settings: Settings,
    transfer: Transfer,
    index: u64,
    flash: &mut [u8],
    seen: &mut [u8],
    sectors: &mut [u8],
) -> io::Result<ControlFlow<Transfer, Transfer>>
    ensures { IfOk result (λ flow. (last : Transfer) → flow ≡ Break last → IsAtEnd (R.remaining from.new)) }
{
    let mut main_ram = [0u8; 0];
    let mut xip_ram = [0u8; 0];
    let mut arrival = [0u8; Block::ARRIVAL];
    let n = reading::read_full(from, &mut arrival)?;
    if n == 0 {
        return Ok(ControlFlow::Break(transfer));
    }
    let received = uf2_receiver::take(
        settings,
        transfer,
        &arrival[..n],
        flash,
        seen,
        sectors,
        &mut main_ram,
        &mut xip_ram,
    );
    print_answer(rt, index, received.answer.number(), received.discarded)?;
    if n < Block::ARRIVAL {
        return Ok(ControlFlow::Break(received.transfer));
    }
    Ok(ControlFlow::Continue(received.transfer))
}

// Answers every piece of the input. The loop has a bound so that its end can be proved: after 2 ^ 64 - 1 pieces, more than any input has,
// the rest would be left unread.
fn run<R: Read>(
    rt: &impl Print,
    from: &mut R,
    flash: &mut [u8],
    seen: &mut [u8],
    sectors: &mut [u8],
) -> io::Result<Transfer> {
    let settings = Settings::arm_only(true);
    let mut transfer = Transfer::new();
    for index in 0..u64::MAX {
        match answer_piece(rt, from, settings, transfer, index, flash, seen, sectors)? {
            ControlFlow::Continue(next) => transfer = next,
            ControlFlow::Break(last) => return Ok(last),
        }
    }
    Ok(transfer)
}

fn main(rt: HostRuntime) -> io::Result<()> {
    // it starts erased
    let mut flash = [0xFFu8; 32768];
    let mut seen = [0u8; Receipt::SEEN];
    let mut sectors = [0u8; Receipt::SECTORS];
    let mut from = rt.reader();
    rt.write_all(b"arrival answer discarded\n")?;
    let transfer = run(&rt, &mut from, &mut flash, &mut seen, &mut sectors)?;
    print_state(&rt, transfer)
}
