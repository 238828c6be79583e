// The transfer: its state, the answers to an arrival, and one step of it.
#![tactic(auto)]

pub mod retold;

ghost use Rattle.std.specs.Prelude.{◌≡◌, ◌+◌};
ghost use Rattle.laws.specs.Numbered.{numbered};
ghost use Rattle.transfer.specs.Transfer.{kind_number, same_kind, head_with, number_of, fresh, good_state, same_head, deed_answer, accepted, step_of, step_number};

// Where a transfer's pages go: to the flash, to main RAM or to XIP RAM.
#[derive(Clone, Copy, PartialEq, Eq)]
pub enum Kind {
    Flash,
    MainRam,
    XipRam,
}

impl Kind {
    pub fn number(self) -> u8
        ensures { result ≡ kind_number self }
    {
        match self {
            Kind::Flash => 0,
            Kind::MainRam => 1,
            Kind::XipRam => 2,
        }
    }
}

pub fn same_kind(a: Kind, b: Kind) -> bool
    ensures { result ≡ same_kind a b }
{
    a == b
}

// What makes two blocks one transfer.
#[derive(Clone, Copy, PartialEq, Eq)]
pub struct Head {
    pub family: u32,
    pub total: u32,
    pub kind: Kind,
}

impl Head {
    pub fn new(kind: Kind, family: u32, total: u32) -> Self
        ensures { result ≡ head_with kind family total }
    {
        Self {
            family,
            total,
            kind,
        }
    }
}

// A transfer under way: so many different blocks have been counted.
#[derive(Clone, Copy)]
pub struct Run {
    pub head: Head,
    pub count: u32,
}

#[derive(Clone, Copy)]
pub enum State {
    Idle,
    Running(Run),
    Done(Head),
}

#[derive(Clone, Copy)]
pub struct Transfer {
    pub state: State,
}

// What a block does once it is accepted: it stores a page, or it is a comment, which is noted and stores nothing, or what it would store is kept
// as it stands.
#[derive(Clone, Copy)]
pub enum Deed {
    Stores,
    Notes,
    Keeps,
}

// The answers to an arrival, in the order of the checks.
#[derive(Clone, Copy)]
pub enum Answer {
    BadBuffers,
    BadSettings,
    BadState,
    NotBlock,
    Container,
    NoFamily,
    NoPlace,
    BadPayload,
    BadNumbers,
    BadAddress,
    Finished,
    Again,
    Written,
    Completed,
    Noted,
    Kept,
}

// A block that changes nothing: the next transfer, which is the one that was, and the answer.
#[derive(Clone, Copy)]
pub struct Unchanged {
    pub transfer: Transfer,
    pub answer: Answer,
}

// A block that is accepted: the next transfer and the answer, whether a running transfer was discarded, whether the maps are cleared first.
#[derive(Clone, Copy)]
pub struct Accepted {
    pub transfer: Transfer,
    pub answer: Answer,
    pub discarded: bool,
    pub clears: bool,
}

impl Answer {
    pub fn number(self) -> u8
        ensures { result ≡ number_of self }
    {
        match self {
            Answer::BadBuffers => 1,
            Answer::BadSettings => 2,
            Answer::BadState => 3,
            Answer::NotBlock => 4,
            Answer::Container => 5,
            Answer::NoFamily => 7,
            Answer::NoPlace => 8,
            Answer::BadPayload => 9,
            Answer::BadNumbers => 10,
            Answer::BadAddress => 11,
            Answer::Finished => 12,
            Answer::Again => 13,
            Answer::Written => 14,
            Answer::Completed => 15,
            Answer::Noted => 16,
            Answer::Kept => 17,
        }
    }
}

// Are the heads one? Then two blocks belong to one transfer.
#[tactic(auto, using(crate::proofs::Laws::heads_are))]
pub fn same_head(g: Head, h: Head) -> bool
    ensures { result ≡ same_head g h }
{
    g == h
}

// The answer to a block that does not complete its transfer.
pub fn deed_answer(deed: Deed) -> Answer
    ensures { result ≡ deed_answer deed }
{
    match deed {
        Deed::Stores => Answer::Written,
        Deed::Notes => Answer::Noted,
        Deed::Keeps => Answer::Kept,
    }
}

// A block is accepted after `before` others. The raised count may not fit 32 bits, so it is compared in 64.
fn accept(deed: Deed, head: Head, before: u32, clears: bool, discarded: bool) -> Accepted
    ensures { result ≡ accepted deed clears discarded head (before + 1) }
{
    let raised = before as u64 + 1;
    // the two cases meet again before anything is handed back: the compiler then keeps the state in registers
    let mut state = State::Done(head);
    let mut answer = Answer::Completed;
    if raised < head.total as u64 {
        let count = raised as u32;
        let run = Run { head, count };
        state = State::Running(run);
        answer = deed_answer(deed);
    }
    let transfer = Transfer { state };
    Accepted {
        transfer,
        answer,
        discarded,
        clears,
    }
}

impl Transfer {
    // The most blocks that a transfer may have.
    pub const LIMIT: u32 = 131072;

    pub fn new() -> Self
        ensures { result ≡ fresh }
    {
        Self { state: State::Idle }
    }

    // May this state be handed in? Nothing but these bounds is asked of it.
    pub fn sound(self) -> bool
        ensures { result ≡ good_state self.state }
    {
        let state = self.state;
        match state {
            State::Idle => true,
            State::Running(run) => {
                let total = run.head.total;
                (1 <= run.count) & (run.count < total) & (total <= Transfer::LIMIT)
            }
            State::Done(head) => (1 <= head.total) & (head.total <= Transfer::LIMIT),
        }
    }

    // What a block of this head does, whose number is marked or not, and which does `deed` once it is accepted. An error is a block that
    // changes nothing.
    pub fn step(self, head: Head, marked: bool, deed: Deed) -> Result<Accepted, Unchanged>
        ensures { numbered step_number result ≡ numbered step_number (step_of self.state head marked deed) }
    {
        let state = self.state;
        match state {
            State::Idle => Ok(accept(deed, head, 0, true, false)),
            State::Running(run) => go_on(run, head, marked, deed),
            State::Done(_) => Err(Unchanged {
                transfer: self,
                answer: Answer::Finished,
            }),
        }
    }
}

// What a block of this head does to a running transfer.
fn go_on(run: Run, head: Head, marked: bool, deed: Deed) -> Result<Accepted, Unchanged>
    ensures { result ≡ step_of (State.Running run) head marked deed }
{
    let current = run.head;
    if !same_head(current, head) {
        return Ok(accept(deed, head, 0, true, true));
    }
    if marked {
        let state = State::Running(run);
        let transfer = Transfer { state };
        return Err(Unchanged {
            transfer,
            answer: Answer::Again,
        });
    }
    Ok(accept(deed, head, run.count, false, false))
}
