// What an arrival hands back: of a refusal, which changes nothing, and of an accepted block, which is entered.
ghost use Rattle.std.specs.Prelude.{◌≡◌};
ghost use Rattle.memory.specs.Flash.{payload_of};
ghost use Rattle.uf2_commit.specs.Entering.{beside_at, beside_left};
ghost use Rattle.uf2_commit.specs.Receipts.{unplanned, enter_return, enter_of};

use flash_plan::Plan;
use transfer::{Answer, Head, Run, State, Transfer};
use uf2_known::{Acceptance, Known};

// What an arrival hands back: the next transfer, the answer, and whether a running transfer was discarded.
#[derive(Clone, Copy)]
pub struct Receipt {
    pub transfer: Transfer,
    pub answer: Answer,
    pub discarded: bool,
}

impl Receipt {
    // The bytes of the seen map and of the sector map.
    pub const SEEN: usize = Known::SEEN;

    pub const SECTORS: usize = Known::SECTORS;
}

// What an arrival hands back whose flash is written by a driver: the receipt, and what is left to do to the flash.
#[derive(Clone, Copy)]
pub struct PlanReceipt {
    pub receipt: Receipt,
    pub plan: Plan,
}

fn same_head(head: Head) -> Head
    ensures { result ≡ head }
{
    let kind = head.kind;
    Head::new(kind, head.family, head.total)
}

// The same transfer, made anew from its fields: the unused bytes between them are then not copied from arrival to arrival.
fn same_transfer(transfer: Transfer) -> Transfer
    ensures { result ≡ transfer }
{
    let old = transfer.state;
    let state = match old {
        State::Idle => State::Idle,
        State::Running(run) => {
            let head = same_head(run.head);
            let count = run.count;
            State::Running(Run { head, count })
        }
        State::Done(head) => State::Done(same_head(head)),
    };
    Transfer { state }
}

// Nothing changes, and this is the answer.
pub fn refuse(transfer: Transfer, answer: Answer) -> PlanReceipt
    ensures { result ≡ unplanned transfer answer }
{
    let same = same_transfer(transfer);
    PlanReceipt {
        receipt: Receipt {
            transfer: same,
            answer,
            discarded: false,
        },
        plan: Plan::Nothing,
    }
}

// A block that is accepted is entered into the maps, and a RAM block into RAM; this is what the arrival hands back.
pub fn enter(
    acceptance: Acceptance,
    arrival: &[u8],
    seen: &mut [u8],
    sectors: &mut [u8],
    main: &mut [u8],
    xip: &mut [u8],
) -> PlanReceipt
    ensures { enter_return result seen.new (beside_left sectors.new main.new xip.new) ≡ enter_of acceptance (payload_of arrival.now) seen.old (beside_at sectors.old main.old xip.old) }
{
    let placed = acceptance.placed;
    let deed = acceptance.deed;
    let accepted = acceptance.accepted;
    let next = accepted.transfer;
    let given = accepted.answer;
    let plan = crate::enter(placed, deed, accepted, arrival, seen, sectors, main, xip);
    PlanReceipt {
        receipt: Receipt {
            transfer: next,
            answer: given,
            discarded: accepted.discarded,
        },
        plan,
    }
}
