// What the calls for arrivals share: the next transfer is written where a block was accepted.
#![tactic(auto)]

pub mod hex;
pub mod known;
pub mod places;
pub mod plans;

ghost use Rattle.std.specs.Prelude.{◌≡◌};
ghost use Rattle.call_bytes.specs.Calls.{kept_transfer};

use transfer::Transfer;

// The next transfer, where a block was accepted.
pub fn keep(transfer: &mut [u8], accepted: bool, next: Transfer)
    ensures { transfer.new ≡ kept_transfer transfer.old accepted next.state }
{
    if accepted {
        transfer_layout::write_transfer(transfer, next);
    }
}
