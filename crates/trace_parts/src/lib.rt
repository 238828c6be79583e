// Parts of a fleet's figures: the part of one trace, and two parts as one, which are over two lists of traces, one list after the other.
#![tactic(auto)]

ghost use Rattle.std.specs.Prelude.{◌≡◌};
ghost use Rattle.laws.specs.Numbered.{numbered};
ghost use Rattle.trace_parts.specs.Merging.{fresh_part, empty_report, stops_fit, good_part, one_part, fits, merge_number, one_of, merge_of};
ghost use Rattle.trace_parts.specs.Summing.{summed_to, last_of, joined_by};

use trace_counts::{Report, ReportError};

// What a list of traces comes to: the report over them, how many there are, and how many of them stopped as "bad" and as "differs".
#[derive(Clone, Copy)]
pub struct Part {
    pub report: Report,
    pub traces: u32,
    pub bad: u32,
    pub differs: u32,
}

// The most records, and the most traces, of a part.
const MAX: u64 = 4294967295;

// Kept, C interface: the stop is the number that uf2_figures returned.
// Where a replay stopped, as the call for a trace has it: 0 nowhere, at a bad record, at one that differs.
const BAD: u32 = 1;

const DIFFERS: u32 = 2;

impl Part {
    pub fn new() -> Self
        ensures { result ≡ fresh_part }
    {
        Self {
            report: Report::new(),
            traces: 0,
            bad: 0,
            differs: 0,
        }
    }
}

// ---- whether parts are good

// No record, and no end.
#[tactic(auto, unfolding(crate::specs::Merging::empty_report))]
fn is_empty(report: Report) -> bool
    ensures { result ≡ empty_report report }
{
    report.records == 0 && report.marked == 0 && report.missing.is_none()
}

// Does no trace stop twice?
fn stops_fit(bad: u32, differs: u32, traces: u32) -> bool
    ensures { result ≡ stops_fit bad differs traces }
{
    u64::from(bad) + u64::from(differs) <= u64::from(traces)
}

// 71 asks this of each.
#[tactic(auto, unfolding(crate::specs::Merging::good_part))]
fn is_good(part: Part) -> bool
    ensures { result ≡ good_part part }
{
    trace_counts::is_good(part.report)
        && (part.traces != 0 || is_empty(part.report))
        && stops_fit(part.bad, part.differs, part.traces)
}

// 70 asks this of both.
fn has_room(records: u32, more: u32, traces: u32, others: u32) -> bool
    ensures { result ≡ fits records more traces others }
{
    u64::from(records) + u64::from(more) <= MAX && u64::from(traces) + u64::from(others) <= MAX
}

// ---- one trace

fn one(report: Report, stop: u32) -> Part
    ensures { result ≡ one_part report stop }
{
    Part {
        report,
        traces: 1,
        bad: u32::from(stop == BAD),
        differs: u32::from(stop == DIFFERS),
    }
}

// The part of one trace: the report over it alone, and where its replay stopped. A report that is not good, or another number, is refused.
#[tactic(auto, unfolding(crate::specs::Merging::one_of))]
pub fn part_of_one(report: Report, stop: u32) -> Result<Part, ReportError>
    ensures { numbered merge_number result ≡ numbered merge_number (one_of report stop) }
{
    if !(trace_counts::is_good(report) && stop <= DIFFERS) {
        return Err(ReportError::BadReport);
    }
    Ok(one(report, stop))
}

// ---- both as one

// The counts of both. Nothing wraps where there is room.
#[tactic(auto, unfolding(crate::specs::Summing::summed_to))]
fn summed(a: [u32; 16], b: [u32; 16]) -> [u32; 16]
    ensures { result ≡ summed_to a b 16 }
{
    let mut counts = a;
    for k in 0..16 {
        counts[k] = a[k].wrapping_add(b[k]);
    }
    counts
}

// The later one, where the later part has a trace.
fn last<T: Copy>(traces: u32, earlier: T, later: T) -> T
    ensures { result ≡ last_of traces earlier later }
{
    if traces == 0 { earlier } else { later }
}

// Both as one. Nothing wraps where there is room.
#[tactic(auto, unfolding(crate::specs::Summing::joined_by))]
fn join(a: Part, b: Part) -> Part
    ensures { result ≡ joined_by a b }
{
    let earlier = a.report;
    let later = b.report;
    Part {
        report: Report {
            records: earlier.records.wrapping_add(later.records),
            counts: summed(earlier.counts, later.counts),
            discards: earlier.discards.wrapping_add(later.discards),
            marked: last(b.traces, earlier.marked, later.marked),
            missing: last(b.traces, earlier.missing, later.missing),
        },
        traces: a.traces.wrapping_add(b.traces),
        bad: a.bad.wrapping_add(b.bad),
        differs: a.differs.wrapping_add(b.differs),
    }
}

// Two parts as one, the earlier first. A part that is not good, and then two that would pass the most records or traces, is refused.
#[tactic(auto, unfolding(crate::specs::Merging::merge_of, crate::specs::Merging::room_for))]
pub fn merge_parts(a: Part, b: Part) -> Result<Part, ReportError>
    ensures { numbered merge_number result ≡ numbered merge_number (merge_of a b) }
{
    if !is_good(a) || !is_good(b) {
        return Err(ReportError::BadReport);
    }
    if !has_room(a.report.records, b.report.records, a.traces, b.traces) {
        return Err(ReportError::TooMany);
    }
    Ok(join(a, b))
}
