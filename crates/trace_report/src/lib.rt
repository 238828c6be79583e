// An exact report over traces: each call adds one trace, replayed from Idle.
#![tactic(auto)]

pub mod adding;

ghost use Rattle.std.specs.Prelude.{◌≡◌};
ghost use Rattle.laws.specs.Numbered.{numbered};
ghost use Rattle.uf2_receiver.specs.Receiver.{lent_at, left_at};
ghost use Rattle.trace_report.specs.Report.{added_return, add_return, outcome_number, add_of};
ghost use Rattle.trace_report.specs.Counting.{replayed_by};

use crate::adding::Addition;
use partitions::Settings;
use trace_counts::{Report, ReportError};

// Kept, C interface: the five buffers are lent one by one, as the calls for C lend them.
// Adds a trace that is replayed, whatever the report: its records are counted as they are replayed.
fn add_replayed(
    report: Report,
    settings: Settings,
    trace: &[u8],
    flash: &mut [u8],
    seen: &mut [u8],
    sectors: &mut [u8],
    main: &mut [u8],
    xip: &mut [u8],
) -> Addition
    ensures { added_return result (left_at flash.new seen.new sectors.new main.new xip.new) ≡ replayed_by report settings (lent_at flash.old seen.old sectors.old main.old xip.old) trace.now }
{
    let pieces = trace.len() / trace_piece::RECORD;
    let mut tally = [0usize; trace_counts::tallies::TALLY];
    let replayed = trace_replay::replay_counted(
        settings, trace, &mut tally, flash, seen, sectors, main, xip,
    );
    let counted = trace_counts::with_tally(
        report,
        tally,
        trace_piece::ends::before_stop(replayed.stop, pieces),
    );
    Addition {
        report: trace_counts::gaps::with_end(counted, replayed.transfer, seen),
        stop: replayed.stop,
    }
}

// Adds one trace. A report that is not good, and then a trace that would pass the most records, is refused: report and buffers stay.
pub fn add(
    report: Report,
    settings: Settings,
    trace: &[u8],
    flash: &mut [u8],
    seen: &mut [u8],
    sectors: &mut [u8],
    main: &mut [u8],
    xip: &mut [u8],
) -> Result<Addition, ReportError>
    ensures { numbered outcome_number (add_return report result (left_at flash.new seen.new sectors.new main.new xip.new)) ≡ numbered outcome_number (add_of report settings (lent_at flash.old seen.old sectors.old main.old xip.old) trace.now) }
{
    if !trace_counts::is_good(report) {
        return Err(ReportError::BadReport);
    }
    let pieces = trace.len() / trace_piece::RECORD;
    if !trace_counts::has_room(report, pieces) {
        return Err(ReportError::TooMany);
    }
    Ok(add_replayed(report, settings, trace, flash, seen, sectors, main, xip))
}
