// What the calls for traces share: where a replay stopped and what came of a trace as numbers, and the bytes of index and report.
#![tactic(auto)]

pub mod reports;

ghost use Rattle.std.specs.Prelude.{◌≡◌};
ghost use Rattle.trace_layout.specs.Kept.{stop_number, index_over, with_stop, figures_result};

use trace_counts::ReportError;
use trace_piece::Stop;

// The bytes of an index.
const INDEX: usize = 8;

// An index, where there are bytes for it.
fn put_index(index: &mut [u8], i: usize)
    ensures { index.new ≡ index_over index.old i }
{
    if index.len() == INDEX {
        index.copy_from_slice(&i.to_le_bytes());
    }
}

// The index of the piece that stopped a replay.
pub fn put_stop(index: &mut [u8], stop: Option<Stop>)
    ensures { index.new ≡ with_stop index.old stop }
{
    match stop {
        None => {}
        Some(Stop::Bad(i) | Stop::Differs(i)) => put_index(index, i),
    }
}

pub fn number(stop: Option<Stop>) -> u32
    ensures { result ≡ stop_number stop }
{
    match stop {
        None => 0,
        Some(Stop::Bad(_)) => 1,
        Some(Stop::Differs(_)) => 2,
    }
}

// What came of a trace that a report was handed: where its replay stopped, or 70 or 71.
pub fn result(answer: Result<Option<Stop>, ReportError>) -> u32
    ensures { result ≡ figures_result answer }
{
    match answer {
        Ok(stop) => number(stop),
        Err(error) => u32::from(error.number()),
    }
}
