// An arrival accepted for C, with a plan for the flash's driver: a library of its own, so that the call is compiled as one piece.
#![tactic(auto)]

ghost use Rattle.std.specs.Prelude.{◌≡◌};
ghost use Rattle.uf2_receiver.specs.Receiver.{lent_at, left_beside};
ghost use Rattle.call_bytes.specs.Calls.{accept_call_of, accept_return};

use call_bytes::plans::PLAN;
use uf2_checks::Lengths;

// One arrival is accepted: what `uf2_take` would return, and what is left to do to the flash. Where the plan has fewer
// than 12 bytes, or more, nothing is done.
#[unsafe(no_mangle)]
pub extern "C" fn uf2_accept(
    settings: &[u8],
    transfer: &mut [u8],
    arrival: &[u8],
    flash: &[u8],
    seen: &mut [u8],
    sectors: &mut [u8],
    main: &mut [u8],
    xip: &mut [u8],
    plan: &mut [u8],
) -> u32
    ensures { accept_return result transfer.new (left_beside flash.now seen.new sectors.new main.new xip.new) plan.new ≡ accept_call_of settings.now transfer.old arrival.now (lent_at flash.now seen.old sectors.old main.old xip.old) plan.old }
{
    let lens = Lengths {
        flash: flash.len(),
        main: main.len(),
        xip: xip.len(),
    };
    let known = call_bytes::known::known_from(settings, lens, seen.len(), sectors.len(), arrival);
    // asked here and not first: the call then keeps fewer values on the stack
    if plan.len() != PLAN {
        return 1;
    }
    let t = transfer_layout::read_transfer(transfer);
    let r = uf2_receiver::accept_known(known, t, arrival, flash, seen, sectors, main, xip);
    call_bytes::plans::hand_back(r, transfer, plan)
}
