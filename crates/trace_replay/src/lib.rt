// A whole trace of what a site sent, replayed from Idle: its pieces one after the other, and a tally of the records that were replayed.
#![tactic(auto)]

pub mod one_piece;

ghost use Rattle.std.specs.Prelude.{◌≡◌};
ghost use Rattle.uf2_receiver.specs.Receiver.{lent_at, left_at, world};
ghost use Rattle.trace_replay.specs.Replay.{trace_outcome, replay_of, tally_return, counted_run, counted_replay};

use partitions::Settings;
use trace_piece::Stop;
use transfer::Transfer;

// What a trace hands back: the transfer at its end, and where it stopped.
#[derive(Clone, Copy)]
pub struct TraceReceipt {
    pub transfer: Transfer,
    pub stop: Option<Stop>,
}

// Kept, C interface: the five buffers are lent one by one, as the calls for C lend them.
// The pieces of a trace one after the other, from Idle: each that is replayed is counted in the tally.
fn run(
    settings: Settings,
    trace: &[u8],
    tally: &mut [usize],
    flash: &mut [u8],
    seen: &mut [u8],
    sectors: &mut [u8],
    main: &mut [u8],
    xip: &mut [u8],
) -> TraceReceipt
    ensures { tally_return result.stop result.transfer tally.new (left_at flash.new seen.new sectors.new main.new xip.new) ≡ counted_run settings tally.old trace.now (lent_at flash.old seen.old sectors.old main.old xip.old) }
{
    let len = trace.len();
    let mut t = Transfer::new();
    for k in 0..len.div_ceil(trace_piece::RECORD) {
        let at = trace_piece::RECORD * k;
        // The last piece may be shorter.
        let to = at + trace_piece::RECORD.min(len - at);
        let next = crate::one_piece::replay_piece(
            settings,
            t,
            &trace[at..to],
            flash,
            seen,
            sectors,
            main,
            xip,
        );
        match next {
            Ok(next) => t = next,
            Err(error) => {
                return TraceReceipt {
                    transfer: t,
                    stop: trace_piece::stop_of(Err(error), k),
                };
            }
        }
        trace_counts::tallies::count(tally, trace[at]);
    }
    TraceReceipt {
        transfer: t,
        stop: None,
    }
}

// A whole trace, from Idle, with a tally: both maps are zeroed first, and what stops the replay is neither applied nor counted.
pub fn replay_counted(
    settings: Settings,
    trace: &[u8],
    tally: &mut [usize],
    flash: &mut [u8],
    seen: &mut [u8],
    sectors: &mut [u8],
    main: &mut [u8],
    xip: &mut [u8],
) -> TraceReceipt
    ensures { tally_return result.stop result.transfer tally.new (left_at flash.new seen.new sectors.new main.new xip.new) ≡ counted_replay settings tally.old trace.now (lent_at flash.old seen.old sectors.old main.old xip.old) }
{
    trace_piece::ends::clear_maps(seen, sectors);
    run(settings, trace, tally, flash, seen, sectors, main, xip)
}

// A whole trace, from Idle: both maps are zeroed first, and what stops the replay is not applied.
pub fn replay(
    settings: Settings,
    trace: &[u8],
    flash: &mut [u8],
    seen: &mut [u8],
    sectors: &mut [u8],
    main: &mut [u8],
    xip: &mut [u8],
) -> TraceReceipt
    ensures { trace_outcome result.stop (world result.transfer (left_at flash.new seen.new sectors.new main.new xip.new)) ≡ replay_of settings (lent_at flash.old seen.old sectors.old main.old xip.old) trace.now }
{
    // Kept, contract: replay_counted takes a tally of any length, and one of none counts nothing.
    let mut tally = [0usize; 0];
    replay_counted(settings, trace, &mut tally, flash, seen, sectors, main, xip)
}
