// One arrival: taken, or accepted with a plan for the flash.
#![tactic(auto)]

pub mod looking;

ghost use Rattle.std.specs.Prelude.{◌≡◌};
ghost use Rattle.laws.specs.Numbered.{numbered};
ghost use Rattle.arrival.specs.Arrive.{outcome_number, receive_of};
ghost use Rattle.flash_plan.specs.Plan.{accepting_number, accepting_of};
ghost use Rattle.uf2_receiver.specs.Receiver.{
  lent_at,
  left_at,
  world,
  accepting,
  take_return,
  planned_return,
  left_beside,
  receive_known,
  accept_known,
};

use partitions::Settings;
use transfer::Transfer;
use uf2_checks::Lengths;
use uf2_commit::receipts::{PlanReceipt, Receipt};
use uf2_known::Known;

// One arrival accepted, where what the settings and the lengths say of it is handed in.
pub fn accept_known(
    known: Known,
    transfer: Transfer,
    arrival: &[u8],
    flash: &[u8],
    seen: &mut [u8],
    sectors: &mut [u8],
    main: &mut [u8],
    xip: &mut [u8],
) -> PlanReceipt
    ensures { accepting result (left_beside flash.now seen.new sectors.new main.new xip.new) ≡ accept_known known (world transfer (lent_at flash.now seen.old sectors.old main.old xip.old)) arrival.now }
{
    let verdict = uf2_decide::judge(known, transfer, arrival, flash, seen, sectors, main, xip);
    match verdict {
        Err(answer) => uf2_commit::receipts::refuse(transfer, answer),
        Ok(acceptance) => uf2_commit::receipts::enter(
            acceptance, arrival, seen, sectors, main, xip,
        ),
    }
}

// One arrival accepted, for flash that is read where it is mapped and written by a driver: transfer, maps and RAM are left as a take leaves them,
// and what is to be done to the flash is the plan.
// Kept, contract: `take` asks the same first. It is lent the flash to write, and this to read.
pub fn accept(
    settings: Settings,
    transfer: Transfer,
    arrival: &[u8],
    flash: &[u8],
    seen: &mut [u8],
    sectors: &mut [u8],
    main: &mut [u8],
    xip: &mut [u8],
) -> PlanReceipt
    ensures { planned_return result (left_beside flash.now seen.new sectors.new main.new xip.new) ≡ numbered accepting_number (accepting_of settings (world transfer (lent_at flash.now seen.old sectors.old main.old xip.old)) arrival.now) }
{
    let lens = Lengths {
        flash: flash.len(),
        main: main.len(),
        xip: xip.len(),
    };
    let known = uf2_known::known_of(settings, lens, seen.len(), sectors.len(), arrival);
    accept_known(known, transfer, arrival, flash, seen, sectors, main, xip)
}

// One arrival, where what the settings and the lengths say of it is handed in: accepted, and its plan performed.
pub fn take_known(
    known: Known,
    transfer: Transfer,
    arrival: &[u8],
    flash: &mut [u8],
    seen: &mut [u8],
    sectors: &mut [u8],
    main: &mut [u8],
    xip: &mut [u8],
) -> Receipt
    ensures { take_return result (left_at flash.new seen.new sectors.new main.new xip.new) ≡ numbered outcome_number (receive_known known (world transfer (lent_at flash.old seen.old sectors.old main.old xip.old)) arrival.now) }
{
    let planned = accept_known(known, transfer, arrival, flash, seen, sectors, main, xip);
    let plan = planned.plan;
    flash_plan::perform(plan, arrival, flash);
    planned.receipt
}

// One arrival: the next transfer and the answer, and what it writes. It gets nothing from a look, and repeats every check.
// Kept, contract: `accept` asks the same first. It is lent the flash to read, and this to write.
pub fn take(
    settings: Settings,
    transfer: Transfer,
    arrival: &[u8],
    flash: &mut [u8],
    seen: &mut [u8],
    sectors: &mut [u8],
    main: &mut [u8],
    xip: &mut [u8],
) -> Receipt
    ensures { take_return result (left_at flash.new seen.new sectors.new main.new xip.new) ≡ numbered outcome_number (receive_of settings (world transfer (lent_at flash.old seen.old sectors.old main.old xip.old)) arrival.now) }
{
    let lens = Lengths {
        flash: flash.len(),
        main: main.len(),
        xip: xip.len(),
    };
    let known = uf2_known::known_of(settings, lens, seen.len(), sectors.len(), arrival);
    take_known(known, transfer, arrival, flash, seen, sectors, main, xip)
}
