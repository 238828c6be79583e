// The end of a trace in a report: how many numbers are marked, and the smallest that is missing.
ghost use Rattle.std.specs.Prelude.{◌≡◌};
ghost use Rattle.laws.specs.Sets.{least};
ghost use Rattle.transfer.specs.Transfer.{count_of};
ghost use Rattle.trace_counts.specs.Counts.{is_missing, missing_at, ended_of};

use crate::Report;
use transfer::{State, Transfer};

// The least number below a total that is not marked, and the total where each is.
pub fn first_missing(map: &[u8], total: u32) -> u32
    ensures { result ≡ least total (is_missing map.now) }
{
    for k in 0..total {
        if !memory::bitmap::marked(map, k as usize) {
            return k;
        }
    }
    total
}

// What is missing at an end.
fn missing_at(transfer: Transfer, seen: &[u8]) -> Option<u32>
    ensures { result ≡ missing_at transfer.state seen.now }
{
    match transfer.state {
        State::Running(run) => Some(first_missing(seen, run.head.total)),
        State::Idle | State::Done(_) => None,
    }
}

// The count of a transfer, which is the total when it is done: as many different numbers are marked at the end of a replay.
fn marked_at(transfer: Transfer) -> u32
    ensures { result ≡ count_of transfer.state }
{
    match transfer.state {
        State::Idle => 0,
        State::Running(run) => run.count,
        State::Done(head) => head.total,
    }
}

// The report with the end that a transfer and the seen map show.
#[tactic(auto, unfolding(crate::specs::Counts::ended_of))]
pub fn with_end(report: Report, transfer: Transfer, seen: &[u8]) -> Report
    ensures { result ≡ ended_of report transfer.state seen.now }
{
    Report {
        marked: marked_at(transfer),
        missing: missing_at(transfer, seen),
        ..report
    }
}
