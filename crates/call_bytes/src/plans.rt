// What the call for an acceptance hands back, as bytes: the plan, the next transfer and the result.
ghost use Rattle.std.specs.Prelude.{◌≡◌, ◌%◌};
ghost use Rattle.transfer.specs.Transfer.{number_of};
ghost use Rattle.transfer_layout.specs.Results.{result_of, is_acceptance};
ghost use Rattle.call_bytes.specs.Calls.{plan_words, plan_bytes, kept_transfer};
ghost use Rattle.call_bytes.specs.Parts.{with_plan};

use flash_plan::Plan;
use memory::flash::Flash;
use uf2_commit::receipts::PlanReceipt;

// The bytes of a plan.
pub const PLAN: usize = 12;

// A plan as numbers: the deed's, where its sector begins, and where its page does.
#[derive(Clone, Copy)]
struct Words {
    deed: u32,
    sector: u32,
    page: u32,
}

// The low 32 bits. Of a plan's numbers they are the whole (proofs/Laws.antt, `plan_low`).
// Kept, no plainer: a cast must lose no bits, so that the remainder stands in any case.
fn low(x: usize) -> u32
    ensures { result ≡ x % 4294967296 }
{
    (x % 4294967296) as u32
}

// The deed's number is asked for where the plan's case is known, so that it is no further branch.
fn numbers(plan: Plan) -> Words
    ensures { plan_words result.deed result.sector result.page ≡ plan_bytes plan }
{
    match plan {
        Plan::Nothing => Words {
            deed: plan.number(),
            sector: 0,
            page: 0,
        },
        Plan::Program(at) => Words {
            deed: plan.number(),
            sector: low(at / Flash::SECTOR * Flash::SECTOR),
            page: low(at),
        },
        Plan::EraseProgram { sector, at } => Words {
            deed: plan.number(),
            sector: low(sector % 1048576 * Flash::SECTOR),
            page: low(at),
        },
    }
}

// Writes a plan, where it has its 12 bytes.
fn tell(plan: Plan, bytes: &mut [u8])
    ensures { bytes.new ≡ with_plan bytes.old plan }
{
    if bytes.len() != PLAN {
        return;
    }
    let w = numbers(plan);
    uf2_block::put(bytes, 0, w.deed);
    uf2_block::put(bytes, 4, w.sector);
    uf2_block::put(bytes, 8, w.page);
}

// What an acceptance returns; the plan is written where it has its 12 bytes, and the next transfer where a block was accepted.
pub fn hand_back(planned: PlanReceipt, transfer: &mut [u8], plan: &mut [u8]) -> u32
    ensures value { result ≡ result_of (number_of planned.receipt.answer) planned.receipt.discarded }
    ensures kept { transfer.new ≡ kept_transfer transfer.old (is_acceptance (number_of planned.receipt.answer)) planned.receipt.transfer.state }
    ensures told { plan.new ≡ with_plan plan.old planned.plan }
{
    let receipt = planned.receipt;
    let answer = receipt.answer;
    let next = receipt.transfer;
    let left = planned.plan;
    tell(left, plan);
    let accepted = transfer_layout::results::is_acceptance(answer);
    crate::keep(transfer, accepted, next);
    transfer_layout::results::result(answer, receipt.discarded) as u32
}
