// How a transfer stands beside a block: done, its number marked already, the count once it is counted, or another transfer that runs and is
// discarded.
ghost use Rattle.std.specs.Prelude.{◌≡◌};
ghost use Rattle.why_causes.specs.Progress.{raised_of, is_done, is_again, runs_other, discarded_by};

use transfer::{Head, State, Transfer};

// Is the transfer done?
pub fn is_done(transfer: Transfer) -> bool
    ensures { result ≡ is_done transfer.state }
{
    matches!(transfer.state, State::Done(_))
}

// Does the block belong to the running transfer, with a number that is marked?
pub fn is_again(transfer: Transfer, head: Head, marked: bool) -> bool
    ensures { result ≡ is_again transfer.state head marked }
{
    if let State::Running(run) = transfer.state {
        transfer::same_head(run.head, head) & marked
    } else {
        false
    }
}

// The count once the block is counted; where it begins a transfer it is the first. It may not fit 32 bits.
#[tactic(auto, unfolding(crate::specs::Progress::raised_of))]
pub fn raised(transfer: Transfer, head: Head) -> u64
    ensures { result ≡ raised_of transfer.state head }
{
    match transfer.state {
        State::Running(run) if transfer::same_head(run.head, head) => run.count as u64 + 1,
        _ => 1,
    }
}

// Does a transfer of another head run?
fn runs_other(transfer: Transfer, head: Head) -> bool
    ensures { result ≡ runs_other transfer.state head }
{
    if let State::Running(run) = transfer.state {
        !transfer::same_head(run.head, head)
    } else {
        false
    }
}

// Is a running transfer discarded, of a block of this head with an answer of this number? By those answers alone that accept it.
pub fn discards(transfer: Transfer, head: Head, number: u8) -> bool
    ensures { result ≡ discarded_by number transfer.state head }
{
    (14 <= number) & runs_other(transfer, head)
}
