// What one trace adds to an exact report, and the number of what comes of it.
ghost use Rattle.std.specs.Prelude.{◌≡◌};
ghost use Rattle.trace_report.specs.Report.{figures_number};

use trace_counts::{Report, ReportError};
use trace_piece::Stop;

// What is handed back of a trace that is added: the next report, and where its replay stopped.
#[derive(Clone, Copy)]
pub struct Addition {
    pub report: Report,
    pub stop: Option<Stop>,
}

// The number of a refusal, and 0 for a trace that is added.
pub fn number(answer: Result<Option<Stop>, ReportError>) -> u8
    ensures { result ≡ figures_number answer }
{
    match answer {
        Ok(_) => 0,
        Err(error) => error.number(),
    }
}
