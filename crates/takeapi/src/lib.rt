// An arrival taken for C: a library of its own, so that the call is compiled as one piece.
#![tactic(auto)]

ghost use Rattle.std.specs.Prelude.{◌≡◌};
ghost use Rattle.uf2_receiver.specs.Receiver.{lent_at, left_at};
ghost use Rattle.call_bytes.specs.Calls.{take_call_of, take_return};

use uf2_checks::Lengths;

// One arrival is taken: the answer's number, and 128 more where a running transfer was discarded.
#[unsafe(no_mangle)]
pub extern "C" fn uf2_take(
    settings: &[u8],
    transfer: &mut [u8],
    arrival: &[u8],
    flash: &mut [u8],
    seen: &mut [u8],
    sectors: &mut [u8],
    main: &mut [u8],
    xip: &mut [u8],
) -> u32
    ensures { take_return result transfer.new (left_at flash.new seen.new sectors.new main.new xip.new) ≡ take_call_of settings.now transfer.old arrival.now (lent_at flash.old seen.old sectors.old main.old xip.old) }
{
    let lens = Lengths {
        flash: flash.len(),
        main: main.len(),
        xip: xip.len(),
    };
    let known = call_bytes::known::known_from(settings, lens, seen.len(), sectors.len(), arrival);
    let t = transfer_layout::read_transfer(transfer);
    let r = uf2_receiver::take_known(known, t, arrival, flash, seen, sectors, main, xip);
    let answer = r.answer;
    let next = r.transfer;
    call_bytes::keep(
        transfer,
        transfer_layout::results::is_acceptance(answer),
        next,
    );
    transfer_layout::results::result(answer, r.discarded) as u32
}
