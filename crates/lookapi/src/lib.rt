// A look at an arrival for C: a library of its own, so that the call is compiled as one piece.
#![tactic(auto)]

ghost use Rattle.std.specs.Prelude.{◌≡◌};
ghost use Rattle.arrival.specs.Lending.{lent_at};
ghost use Rattle.call_bytes.specs.Calls.{look_call_of};

// A look at one arrival: what `uf2_take` would return. Nothing is written.
#[unsafe(no_mangle)]
pub extern "C" fn uf2_look(
    settings: &[u8],
    transfer: &[u8],
    arrival: &[u8],
    flash: &[u8],
    seen: &[u8],
    sectors: &[u8],
    main: &[u8],
    xip: &[u8],
) -> u32
    ensures { result ≡ look_call_of settings.now transfer.now arrival.now (lent_at flash.now seen.now sectors.now main.now xip.now) }
{
    let s = settings_layout::read_settings(settings);
    let t = transfer_layout::read_transfer(transfer);
    let p = uf2_receiver::looking::look(s, t, arrival, flash, seen, sectors, main, xip);
    let answer = p.answer;
    transfer_layout::results::result(answer, p.discarded) as u32
}
