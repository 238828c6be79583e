// The call that replays a trace. Settings and the transfer are bytes in the layout of `layout`.
ghost use Rattle.std.specs.Prelude.{◌≡◌};
ghost use Rattle.uf2_receiver.specs.Receiver.{lent_at, left_at};
ghost use Rattle.traceapi.specs.ReplayCall.{replay_return, replay_call_of};

// A whole trace from Idle: 0, or 1 for a bad piece and 2 for one that differs, and its index. The end's transfer is written.
#[unsafe(no_mangle)]
pub extern "C" fn uf2_replay(
    settings: &[u8],
    trace: &[u8],
    flash: &mut [u8],
    seen: &mut [u8],
    sectors: &mut [u8],
    main: &mut [u8],
    xip: &mut [u8],
    transfer: &mut [u8],
    index: &mut [u8],
) -> u32
    ensures { replay_return result transfer.new index.new (left_at flash.new seen.new sectors.new main.new xip.new) ≡ replay_call_of settings.now trace.now transfer.old index.old (lent_at flash.old seen.old sectors.old main.old xip.old) }
{
    let s = settings_layout::read_settings(settings);
    let r = trace_replay::replay(s, trace, flash, seen, sectors, main, xip);
    transfer_layout::write_transfer(transfer, r.transfer);
    trace_layout::put_stop(index, r.stop);
    trace_layout::number(r.stop)
}
