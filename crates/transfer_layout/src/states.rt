// What the numbers of a transfer's bytes say: its kind, and its state. Every number is read; `transferbytes` has the layout.
ghost use Rattle.std.specs.Prelude.{◌≡◌};
ghost use Rattle.transfer_layout.specs.States.{kind_from, no_state, state_of};

use transfer::{Head, Kind, Run, State};

// The kind of a number. Any but 1 and 2 gives Flash; `state` refuses one over 2 afterwards, unless the transfer is Idle.
#[tactic(auto, unfolding(crate::specs::States::kind_from))]
pub fn kind(number: u8) -> Kind
    ensures { result ≡ kind_from number }
{
    match number {
        1 => Kind::MainRam,
        2 => Kind::XipRam,
        _ => Kind::Flash,
    }
}

// Of another tag than 0, 1 and 2, and of another kind where it is not Idle: a running transfer that is bad.
pub fn state(tag: u8, kind: u8, head: Head, count: u32) -> State
    ensures { result ≡ state_of tag kind head count }
{
    if tag == 0 {
        return State::Idle;
    }
    if 2 < kind {
        return none();
    }
    if tag == 1 {
        let run = Run { head, count };
        return State::Running(run);
    }
    if tag == 2 {
        return State::Done(head);
    }
    none()
}

// No state: a running transfer that has counted none.
pub fn none() -> State
    ensures { result ≡ no_state }
{
    let head = Head::new(Kind::Flash, 0, 0);
    let run = Run { head, count: 0 };
    State::Running(run)
}
