// The answer to a block that was accepted as one that stores, by what it does instead.
ghost use Rattle.std.specs.Prelude.{◌≡◌};
ghost use Rattle.transfer.specs.Transfer.{told_answer, with_deed};

use crate::{Accepted, Answer, Deed, State, Transfer};

// The answer to a block that does `deed`, where `given` is that to one that stores, and the transfer goes on to `next`.
fn told(next: Transfer, deed: Deed, given: Answer) -> Answer
    ensures { result ≡ told_answer deed next.state given }
{
    let state = next.state;
    match state {
        State::Idle => given,
        State::Running(_) => crate::deed_answer(deed),
        State::Done(_) => given,
    }
}

// A block that was accepted as one that stores does `deed` instead: the step is not made again.
pub fn doing(stored: Accepted, deed: Deed) -> Accepted
    ensures { result ≡ with_deed deed stored }
{
    let next = stored.transfer;
    let given = stored.answer;
    let answer = told(next, deed, given);
    Accepted {
        transfer: next,
        answer,
        discarded: stored.discarded,
        clears: stored.clears,
    }
}
