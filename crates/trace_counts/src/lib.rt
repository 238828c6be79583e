// A report over many traces: records counted by their answers, whether it is good and has room, and a tally added to it.
#![tactic(auto)]

pub mod gaps;
pub mod tallies;

ghost use Rattle.std.specs.Prelude.{◌≡◌};
ghost use Rattle.trace_counts.specs.Counts.{fresh_report, sum_to, good_report, with_room, error_number, with_tally};

use crate::tallies::TALLY;

// Over all traces: the records replayed, how many had each answer (1 to 5, then 7 to 17), and how many discarded; and of the last trace's
// end, the different numbers marked and the smallest missing.
#[derive(Clone, Copy)]
pub struct Report {
    pub records: u32,
    // Kept, C interface: the counts are 16 words one after the other in a report's bytes.
    pub counts: [u32; 16],
    pub discards: u32,
    pub marked: u32,
    pub missing: Option<u32>,
}

// Why nothing is added to a report, or to a part with one: a report or a part is not good, or the records or traces would be too many.
#[derive(Clone, Copy, PartialEq, Eq)]
pub enum ReportError {
    BadReport,
    TooMany,
}

impl ReportError {
    pub fn number(self) -> u8
        ensures { result ≡ error_number self }
    {
        match self {
            ReportError::BadReport => 71,
            ReportError::TooMany => 70,
        }
    }
}

// The most records of a report.
const MAX: usize = 4294967295;

// ---- a report

impl Report {
    pub fn new() -> Self
        ensures { result ≡ fresh_report }
    {
        Self {
            records: 0,
            counts: [0; 16],
            discards: 0,
            marked: 0,
            missing: None,
        }
    }
}

// The sum of the counts, which may not fit 32 bits.
#[tactic(auto, unfolding(crate::specs::Counts::sum_to))]
fn sum(counts: [u32; 16]) -> u64
    ensures { result ≡ sum_to 16 counts }
{
    let mut total = 0;
    for i in 0..16 {
        total += u64::from(counts[i]);
    }
    total
}

// Do the counts sum to the records, and are there no more discards than records?
#[tactic(auto, unfolding(crate::specs::Counts::good_report))]
pub fn is_good(report: Report) -> bool
    ensures { result ≡ good_report report }
{
    sum(report.counts) == u64::from(report.records) && report.discards <= report.records
}

// Is there room for so many records more?
#[tactic(auto, unfolding(crate::specs::Counts::with_room))]
pub fn has_room(report: Report, pieces: usize) -> bool
    ensures { result ≡ with_room report pieces }
{
    pieces <= MAX - report.records as usize
}

// ---- a tally added

// A report with the tally of so many records more.
#[tactic(auto, unfolding(crate::specs::Counts::with_tally))]
pub fn with_tally(report: Report, tally: [usize; TALLY], records: usize) -> Report
    ensures { result ≡ with_tally report tally records }
{
    Report {
        records: crate::tallies::plus(report.records, records),
        counts: crate::tallies::added_counts(report.counts, tally),
        discards: crate::tallies::plus(report.discards, tally[crate::tallies::DISCARDS]),
        ..report
    }
}
