// The C interface: its calls. Settings and transfers are bytes in the layout of `layout`, everything else numbers and slices of bytes.
#![tactic(auto)]

ghost use Rattle.std.specs.Prelude.{◌≡◌};
ghost use Rattle.transfer.specs.Transfer.{fresh};
ghost use Rattle.uf2_receiver.specs.Receiver.{lent_at, left_at};
ghost use Rattle.settings_layout.specs.Layout.{with_transfer};
ghost use Rattle.call_bytes.specs.Calls.{batch_call_of, batch_return};
ghost use Rattle.call_bytes.specs.PlacesCalls.{place_call, ask_bytes};

use transfer::Transfer;

mod hex;

// A fresh transfer, where there are bytes for it.
#[unsafe(no_mangle)]
pub extern "C" fn uf2_new(transfer: &mut [u8])
    ensures { transfer.new ≡ with_transfer transfer.old fresh.state }
{
    transfer_layout::write_transfer(transfer, Transfer::new());
}

// A place asked for alone: 0 and its start and length in `place`, or 1, 2 or 8.
#[unsafe(no_mangle)]
pub extern "C" fn uf2_ask(settings: &[u8], flash_len: usize, family: u32, place: &mut [u8]) -> u32
    ensures { place_call result place.new ≡ ask_bytes settings.now flash_len family place.old }
{
    call_bytes::places::ask(settings, flash_len, family, place)
}

// Whole arrivals are taken one after the other, as many as there are results for: their number, and the result of each.
#[unsafe(no_mangle)]
pub extern "C" fn uf2_take_all(
    settings: &[u8],
    transfer: &mut [u8],
    arrivals: &[u8],
    results: &mut [u8],
    flash: &mut [u8],
    seen: &mut [u8],
    sectors: &mut [u8],
    main: &mut [u8],
    xip: &mut [u8],
) -> usize
    ensures { batch_return result transfer.new results.new (left_at flash.new seen.new sectors.new main.new xip.new) ≡ batch_call_of settings.now transfer.old arrivals.now results.old (lent_at flash.old seen.old sectors.old main.old xip.old) }
{
    let s = settings_layout::read_settings(settings);
    let t = transfer_layout::read_transfer(transfer);
    let b = uf2_batch::take_all(s, t, arrivals, results, flash, seen, sectors, main, xip);
    let next = b.transfer;
    call_bytes::keep(transfer, b.accepted, next);
    b.number
}
