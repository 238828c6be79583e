// Parts of a fleet's figures as bytes: how a part goes in, and how it comes back. Every byte slice is read; include/uf2_parts.h has the layout for C.
ghost use Rattle.std.specs.Prelude.{◌≡◌};
ghost use Rattle.partapi.specs.Parts.{no_part, part_from, part_written};

use trace_layout::reports::REPORT;
use trace_parts::Part;

// The bytes of a part: those of a report, and three words.
pub const PART: usize = 96;

// Bytes of another length, which are refused: they are no report.
fn no_part() -> Part
    ensures { result ≡ no_part }
{
    Part {
        report: trace_layout::reports::read_report(&[]),
        ..Part::new()
    }
}

// The part that bytes are.
#[tactic(auto, unfolding(crate::specs::Parts::part_from))]
pub fn read_part(bytes: &[u8]) -> Part
    ensures { result ≡ part_from bytes.now }
{
    if bytes.len() != PART {
        return no_part();
    }
    Part {
        report: trace_layout::reports::read_report(&bytes[0..REPORT]),
        traces: uf2_block::field(bytes, 84),
        bad: uf2_block::field(bytes, 88),
        differs: uf2_block::field(bytes, 92),
    }
}

// Writes a part, where there are bytes for it.
pub fn write_part(bytes: &mut [u8], part: Part)
    ensures { bytes.new ≡ part_written bytes.old part }
{
    if bytes.len() != PART {
        return;
    }
    trace_layout::reports::write_report(&mut bytes[0..REPORT], part.report);
    uf2_block::put(bytes, 84, part.traces);
    uf2_block::put(bytes, 88, part.bad);
    uf2_block::put(bytes, 92, part.differs);
}
