// The C interface for parts of a fleet's figures: the part of one trace, and two parts as one. It is a library of its own, with no replay in it.
// Reports are bytes in the layout of `reports`, parts in that of `parts`.
#![tactic(auto)]

pub mod parts;

ghost use Rattle.std.specs.Prelude.{◌≡◌};
ghost use Rattle.partapi.specs.PartCalls.{part_call, told_of, one_call, merge_call};

use crate::parts::PART;
use trace_counts::ReportError;
use trace_parts::Part;

// The number of what was made, and the next part written where there is one: a refusal leaves the bytes.
#[tactic(auto, unfolding(crate::specs::PartCalls::told_of, crate::specs::PartCalls::kept_part))]
fn tell(made: Result<Part, ReportError>, part: &mut [u8]) -> u32
    ensures { part_call result part.new ≡ told_of part.old made }
{
    match made {
        Ok(next) => {
            crate::parts::write_part(part, next);
            0
        }
        Err(error) => u32::from(error.number()),
    }
}

// The part of one trace, in `part`: `report` as one call for figures left it that was handed a fresh one, and `stop` as it returned. 0, or 71, and
// `part` stays.
#[tactic(auto, unfolding(crate::specs::PartCalls::one_call))]
#[unsafe(no_mangle)]
pub extern "C" fn uf2_part_one(report: &[u8], stop: u32, part: &mut [u8]) -> u32
    ensures { part_call result part.new ≡ one_call report.now stop part.old }
{
    if part.len() != PART {
        return 71;
    }
    let was = trace_layout::reports::read_report(report);
    tell(trace_parts::part_of_one(was, stop), part)
}

// A part and a later one as one, in `part`: 0; or 71, and then 70, and `part` stays.
#[tactic(auto, unfolding(crate::specs::PartCalls::merge_call))]
#[unsafe(no_mangle)]
pub extern "C" fn uf2_part_merge(part: &mut [u8], later: &[u8]) -> u32
    ensures { part_call result part.new ≡ merge_call part.old later.now }
{
    let a = crate::parts::read_part(part);
    let b = crate::parts::read_part(later);
    tell(trace_parts::merge_parts(a, b), part)
}
