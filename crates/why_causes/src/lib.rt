// Why an arrival is answered as it is: the condition that decided, with the number tested and what it is tested against. Here are the conditions,
// and the rows of the transfer's state and of a block's header, which are tests of two numbers each: 3 to 7.
#![tactic(auto)]

pub mod lengths;
pub mod number_checks;
pub mod page;
pub mod progress;

ghost use Rattle.std.specs.Prelude.{◌≡◌};
ghost use Rattle.why_causes.specs.Causes.{answer_of, cause_number, length_number, bound_number, magic_number, numbers_number, address_number, not_kept_number, reason_with};
ghost use Rattle.why_causes.specs.Checks.{by_numbers, row_of, running_row, done_row, state_row, magic_row, flags_row, header_row};

use transfer::{Answer, Head, Run, State, Transfer};
use uf2_block::Block;
use why_place::Denial;
use why_settings::Fault;

// Row 1: whose length is wrong.
#[derive(Clone, Copy)]
pub enum Length {
    Arrival,
    FlashRagged,
    FlashUnder,
    FlashOver,
    Seen,
    Sectors,
    Main,
    Xip,
}

// Row 3: which bound a running transfer, or one that is done, does not keep.
#[derive(Clone, Copy)]
pub enum Bound {
    CountUnder,
    CountOver,
    RunningOver,
    DoneUnder,
    DoneOver,
}

// Row 4: which magic number differs.
#[derive(Clone, Copy)]
pub enum Magic {
    First,
    Second,
    Last,
}

// Row 10.
#[derive(Clone, Copy)]
pub enum Numbers {
    TotalZero,
    TotalPast,
    NumberPast,
}

// Row 11: of an address below the windows, of one of flash, of one in a RAM window, and of one in no window.
#[derive(Clone, Copy)]
pub enum Address {
    Below,
    Ragged,
    Past,
    PastWindow,
    NoWindow,
}

// Why a page is written, and not kept as it stands.
#[derive(Clone, Copy)]
pub enum NotKept {
    NoRegion,
    InRam,
    Ragged,
    Empty,
    OutsidePlace,
    NotAround,
    OtherDigest,
}

// An answer, with the condition of its row that decided.
#[derive(Clone, Copy)]
pub enum Cause {
    BadBuffers(Length),
    BadSettings(Fault),
    BadState(Bound),
    NotBlock(Magic),
    Container,
    NoFamily,
    NoPlace(Denial),
    BadPayload,
    BadNumbers(Numbers),
    BadAddress(Address),
    Finished,
    Again,
    Written(NotKept),
    Completed,
    Noted,
    Kept,
}

// The condition, the number tested and what it is tested against; from 14 on the raised count and the total.
#[derive(Clone, Copy)]
pub struct Reason {
    pub cause: Cause,
    pub got: u64,
    pub against: u64,
}

impl Length {
    fn number(self) -> u16
        ensures { result ≡ length_number self }
    {
        match self {
            Length::Arrival => 101,
            Length::FlashRagged => 102,
            Length::FlashUnder => 103,
            Length::FlashOver => 104,
            Length::Seen => 105,
            Length::Sectors => 106,
            Length::Main => 107,
            Length::Xip => 108,
        }
    }
}

impl Bound {
    fn number(self) -> u16
        ensures { result ≡ bound_number self }
    {
        match self {
            Bound::CountUnder => 301,
            Bound::CountOver => 302,
            Bound::RunningOver => 303,
            Bound::DoneUnder => 304,
            Bound::DoneOver => 305,
        }
    }
}

impl Magic {
    fn number(self) -> u16
        ensures { result ≡ magic_number self }
    {
        match self {
            Magic::First => 401,
            Magic::Second => 402,
            Magic::Last => 403,
        }
    }
}

impl Numbers {
    fn number(self) -> u16
        ensures { result ≡ numbers_number self }
    {
        match self {
            Numbers::TotalZero => 1001,
            Numbers::TotalPast => 1002,
            Numbers::NumberPast => 1003,
        }
    }
}

impl Address {
    fn number(self) -> u16
        ensures { result ≡ address_number self }
    {
        match self {
            Address::Below => 1101,
            Address::Ragged => 1102,
            Address::Past => 1103,
            Address::PastWindow => 1104,
            Address::NoWindow => 1105,
        }
    }
}

impl NotKept {
    fn number(self) -> u16
        ensures { result ≡ not_kept_number self }
    {
        match self {
            NotKept::NoRegion => 1401,
            NotKept::InRam => 1402,
            NotKept::Ragged => 1403,
            NotKept::Empty => 1404,
            NotKept::OutsidePlace => 1405,
            NotKept::NotAround => 1406,
            NotKept::OtherDigest => 1407,
        }
    }
}

impl Cause {
    // The answer is the cause's: no field can disagree with it.
    pub fn answer(self) -> Answer
        ensures { result ≡ answer_of self }
    {
        match self {
            Cause::BadBuffers(_) => Answer::BadBuffers,
            Cause::BadSettings(_) => Answer::BadSettings,
            Cause::BadState(_) => Answer::BadState,
            Cause::NotBlock(_) => Answer::NotBlock,
            Cause::Container => Answer::Container,
            Cause::NoFamily => Answer::NoFamily,
            Cause::NoPlace(_) => Answer::NoPlace,
            Cause::BadPayload => Answer::BadPayload,
            Cause::BadNumbers(_) => Answer::BadNumbers,
            Cause::BadAddress(_) => Answer::BadAddress,
            Cause::Finished => Answer::Finished,
            Cause::Again => Answer::Again,
            Cause::Written(_) => Answer::Written,
            Cause::Completed => Answer::Completed,
            Cause::Noted => Answer::Noted,
            Cause::Kept => Answer::Kept,
        }
    }

    // The row times 100, and the condition in it.
    pub fn number(self) -> u16
        ensures { result ≡ cause_number self }
    {
        match self {
            Cause::BadBuffers(x) => x.number(),
            Cause::BadSettings(x) => x.number(),
            Cause::BadState(x) => x.number(),
            Cause::NotBlock(x) => x.number(),
            Cause::Container => 501,
            Cause::NoFamily => 701,
            Cause::NoPlace(x) => x.number(),
            Cause::BadPayload => 901,
            Cause::BadNumbers(x) => x.number(),
            Cause::BadAddress(x) => x.number(),
            Cause::Finished => 1201,
            Cause::Again => 1301,
            Cause::Written(x) => x.number(),
            Cause::Completed => 1501,
            Cause::Noted => 1601,
            Cause::Kept => 1701,
        }
    }
}

impl Reason {
    pub fn new(cause: Cause, got: u64, against: u64) -> Self
        ensures { result ≡ reason_with cause got against }
    {
        Self {
            cause,
            got,
            against,
        }
    }
}

// This check decides.
pub fn decides(cause: Cause, got: u64, against: u64) -> Result<(), Reason>
    ensures { result ≡ Err (reason_with cause got against) }
{
    Err(Reason::new(cause, got, against))
}

// Row 3: this bound is not kept.
fn bad_state(x: Bound, got: u32, against: u32) -> Result<(), Reason>
    ensures { result ≡ Err (reason_with (Cause.BadState x) got against) }
{
    decides(Cause::BadState(x), got as u64, against as u64)
}

// Row 4: this magic number differs.
fn not_block(x: Magic, got: u32, against: u32) -> Result<(), Reason>
    ensures { result ≡ Err (reason_with (Cause.NotBlock x) got against) }
{
    decides(Cause::NotBlock(x), got as u64, against as u64)
}

// ---- row 3

#[tactic(auto, unfolding(crate::specs::Checks::row_of, crate::specs::Checks::running_row))]
fn running_row(run: Run) -> Result<(), Reason>
    ensures { result ≡ row_of by_numbers (running_row run) }
{
    let total = run.head.total;
    let count = run.count;
    if count < 1 {
        return bad_state(Bound::CountUnder, count, 1);
    }
    if total <= count {
        return bad_state(Bound::CountOver, count, total);
    }
    if Transfer::LIMIT < total {
        return bad_state(Bound::RunningOver, total, Transfer::LIMIT);
    }
    Ok(())
}

#[tactic(auto, unfolding(crate::specs::Checks::row_of, crate::specs::Checks::done_row))]
fn done_row(head: Head) -> Result<(), Reason>
    ensures { result ≡ row_of by_numbers (done_row head) }
{
    let total = head.total;
    if total < 1 {
        return bad_state(Bound::DoneUnder, total, 1);
    }
    if Transfer::LIMIT < total {
        return bad_state(Bound::DoneOver, total, Transfer::LIMIT);
    }
    Ok(())
}

// Row 3.
#[tactic(auto, unfolding(crate::specs::Checks::row_of, crate::specs::Checks::state_row))]
pub fn state_row(transfer: Transfer) -> Result<(), Reason>
    ensures { result ≡ row_of by_numbers (state_row transfer.state) }
{
    match transfer.state {
        State::Idle => Ok(()),
        State::Running(run) => running_row(run),
        State::Done(head) => done_row(head),
    }
}

// ---- rows 4 to 7

#[tactic(auto, unfolding(crate::specs::Checks::row_of, crate::specs::Checks::magic_row))]
fn magic_row(first: u32, second: u32, last: u32) -> Result<(), Reason>
    ensures { result ≡ row_of by_numbers (magic_row first second last) }
{
    if first != Block::MAGIC_FIRST {
        return not_block(Magic::First, first, Block::MAGIC_FIRST);
    }
    if second != Block::MAGIC_SECOND {
        return not_block(Magic::Second, second, Block::MAGIC_SECOND);
    }
    if last != Block::MAGIC_LAST {
        return not_block(Magic::Last, last, Block::MAGIC_LAST);
    }
    Ok(())
}

#[tactic(auto, unfolding(crate::specs::Checks::row_of, crate::specs::Checks::flags_row))]
fn flags_row(flags: u32) -> Result<(), Reason>
    ensures { result ≡ row_of by_numbers (flags_row flags) }
{
    if flags / Block::FLAG_CONTAINER % 2 == 1 {
        return decides(Cause::Container, flags as u64, Block::FLAG_CONTAINER as u64);
    }
    if flags / Block::FLAG_FAMILY % 2 != 1 {
        return decides(Cause::NoFamily, flags as u64, Block::FLAG_FAMILY as u64);
    }
    Ok(())
}

// Rows 4 to 7.
pub fn header_row(arrival: &[u8]) -> Result<(), Reason>
    ensures { result ≡ row_of by_numbers (header_row arrival.now) }
{
    magic_row(
        uf2_block::field(arrival, 0),
        uf2_block::field(arrival, 4),
        uf2_block::field(arrival, 508),
    )?;
    flags_row(uf2_block::field(arrival, 8))
}
