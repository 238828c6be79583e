// Reports as bytes: how a report goes in, and how it comes back. Every byte slice is read; include/uf2_tools.h has the layout for C.
ghost use Rattle.std.specs.Prelude.{◌≡◌};
ghost use Rattle.trace_layout.specs.Reports.{
  no_report,
  missing_from,
  counts_from,
  report_from,
  report_written,
};

use trace_counts::Report;

// The bytes of a report: 21 words of four bytes.
pub const REPORT: usize = 84;

// One record that has no count, which is refused.
fn no_report() -> Report
    ensures { result ≡ no_report }
{
    Report {
        records: 1,
        ..Report::new()
    }
}

fn missing_from(flag: u32, number: u32) -> Option<u32>
    ensures { result ≡ missing_from flag number }
{
    if flag == 0 { None } else { Some(number) }
}

#[tactic(auto, using(crate::proofs::reports::Words::counts_all))]
fn counts_from(bytes: &[u8]) -> [u32; 16]
    ensures { result ≡ counts_from bytes.now }
{
    let mut counts = [0; 16];
    for k in 0..16 {
        counts[k] = uf2_block::field(bytes, 4 + 4 * k);
    }
    counts
}

// The report that bytes are.
#[tactic(auto, unfolding(crate::specs::Reports::report_from, crate::specs::Reports::fields_from))]
pub fn read_report(bytes: &[u8]) -> Report
    ensures { result ≡ report_from bytes.now }
{
    if bytes.len() != REPORT {
        return no_report();
    }
    Report {
        records: uf2_block::field(bytes, 0),
        counts: counts_from(bytes),
        discards: uf2_block::field(bytes, 68),
        marked: uf2_block::field(bytes, 72),
        missing: missing_from(uf2_block::field(bytes, 76), uf2_block::field(bytes, 80)),
    }
}

// Writes a report, where there are bytes for it.
pub fn write_report(bytes: &mut [u8], report: Report)
    ensures { bytes.new ≡ report_written bytes.old report }
{
    if bytes.len() != REPORT {
        return;
    }
    uf2_block::put(bytes, 0, report.records);
    for k in 0..16 {
        uf2_block::put(bytes, 4 + 4 * k, report.counts[k]);
    }
    uf2_block::put(bytes, 68, report.discards);
    uf2_block::put(bytes, 72, report.marked);
    uf2_block::put(bytes, 76, u32::from(report.missing.is_some()));
    uf2_block::put(bytes, 80, report.missing.unwrap_or(0));
}
