// Why an arrival is answered as it is, and why a family has a place or none: the check that decides, first in its row as written.
#![tactic(auto)]

ghost use Rattle.std.specs.Prelude.{◌≡◌};
ghost use Rattle.why.specs.Why.{reason_of, discards_of, entries_of, why_number, why_of};
ghost use Rattle.why.specs.Placed.{placed_of, placed_marks, why_place_number, why_place_of};
ghost use Rattle.laws.specs.Numbered.{numbered};
ghost use Rattle.why.specs.Parts.{finding_row, access_in, board_part, early_part, block_part, place_part};
ghost use Rattle.why_settings.specs.Faults.{first_fault};
ghost use Rattle.arrival.specs.Lending.{lent_at, world};

use partitions::Settings;
use placement::Place;
use transfer::{Head, Kind, Transfer};
use uf2_block::Block;
use uf2_checks::Lengths;
use why_causes::{Cause, Reason};
use why_place::{Denial, Origin};

// Why an arrival is answered as it is: the reason, whether a running transfer is discarded and, where no entry of a table takes the family, a mark for
// each used entry: 1 "B of", else 2 "doesn't accept".
#[derive(Clone, Copy)]
pub struct Why {
    pub reason: Reason,
    pub discarded: bool,
    pub entries: [u8; 16],
}

// Where a place comes from, or the reason why there is none, with the marks of the entries.
#[derive(Clone, Copy)]
pub struct WhyPlace {
    pub placed: Result<Origin, Reason>,
    pub entries: [u8; 16],
}

// ---- rows 1 to 7

// The first fault of the settings, with its numbers.
fn fault_row(settings: Settings, flash_len: usize) -> Result<(), Reason>
    ensures { result ≡ finding_row settings flash_len (first_fault settings flash_len) }
{
    match why_settings::first::first(settings, flash_len) {
        None => Ok(()),
        Some(x) => {
            let n = why_settings::numbers(settings, flash_len, x);
            why_causes::decides(Cause::BadSettings(x), n.got, n.against)
        }
    }
}

// Row 2. Good settings have no fault, which is told sooner than each fault that they do not have.
#[tactic(auto, using(crate::proofs::Laws::finding_good))]
fn settings_row(settings: Settings, flash_len: usize) -> Result<(), Reason>
    ensures { result ≡ finding_row settings flash_len (first_fault settings flash_len) }
{
    if partitions::validity::good(settings, flash_len) {
        return Ok(());
    }
    fault_row(settings, flash_len)
}

// Rows 1 to 3.
#[tactic(auto, unfolding(crate::specs::Parts::board_part))]
fn board_row(
    settings: Settings,
    transfer: Transfer,
    arrival: usize,
    lens: Lengths,
    seen: usize,
    sectors: usize,
) -> Result<(), Reason>
    ensures { result ≡ board_part settings transfer.state arrival lens seen sectors }
{
    why_causes::lengths::lengths_row(arrival, lens, seen, sectors)?;
    settings_row(settings, lens.flash)?;
    why_causes::state_row(transfer)
}

// Rows 1 to 7.
#[tactic(auto, unfolding(crate::specs::Parts::early_part))]
fn early_row(
    settings: Settings,
    transfer: Transfer,
    arrival: &[u8],
    lens: Lengths,
    seen: usize,
    sectors: usize,
) -> Result<(), Reason>
    ensures { result ≡ early_part settings transfer.state arrival.now lens seen sectors }
{
    board_row(settings, transfer, arrival.len(), lens, seen, sectors)?;
    why_causes::header_row(arrival)
}

// ---- rows 8 to 11

// What shuts a family out, by the kind of its block.
fn access_in(settings: Settings, kind: Kind, family: u32) -> Result<(), Denial>
    ensures { result ≡ access_in settings kind family }
{
    match kind {
        Kind::Flash => why_place::flash_access(settings, family),
        Kind::MainRam => why_place::ram_access(settings, family),
        Kind::XipRam => why_place::ram_access(settings, family),
    }
}

// Rows 8 to 11, where `place` is the family's in the flash.
#[tactic(auto, unfolding(crate::specs::Parts::block_part))]
fn block_row(
    settings: Settings,
    place: Option<Place>,
    kind: Kind,
    lens: Lengths,
    b: Block,
) -> Result<(), Reason>
    ensures { result ≡ block_part settings place kind lens b }
{
    access_in(settings, kind, b.family).map_err(|x| Reason::new(
        Cause::NoPlace(x),
        b.family as u64,
        0,
    ))?;
    let size = why_checks::room_of(place, kind);
    why_checks::body_row(size, lens, b)
}

// ---- an arrival

// The check that decides.
#[tactic(auto, using(crate::proofs::Laws::reason_early, crate::proofs::Laws::reason_block, crate::proofs::Laws::reason_late))]
fn reason_of(
    settings: Settings,
    transfer: Transfer,
    arrival: &[u8],
    flash: &[u8],
    seen: &[u8],
    sectors: &[u8],
    main: &[u8],
    xip: &[u8],
) -> Reason
    ensures { result ≡ reason_of settings (world transfer (lent_at flash.now seen.now sectors.now main.now xip.now)) arrival.now }
{
    let lens = Lengths {
        flash: flash.len(),
        main: main.len(),
        xip: xip.len(),
    };
    if let Err(x) = early_row(settings, transfer, arrival, lens, seen.len(), sectors.len()) {
        return x;
    }
    let b = uf2_block::fields(arrival);
    let kind = why_checks::kind_of(lens, transfer, b);
    let place = placement::find(settings, flash.len(), b.family);
    if let Err(y) = block_row(settings, place, kind, lens, b) {
        return y;
    }
    let head = Head::new(kind, b.family, b.total);
    why_checks::late(
        transfer, head, place, b.comment, b.number, arrival, flash, seen,
    )
}

// Is a running transfer discarded, of a block of this head?
#[tactic(auto, using(crate::proofs::Kept::discards_is))]
fn discards(transfer: Transfer, head: Head, cause: Cause) -> bool
    ensures { result ≡ discards_of transfer.state head cause }
{
    let number = cause.answer().number();
    why_causes::progress::discards(transfer, head, number)
}

// The marks of the entries, where no entry of a table takes the family.
#[tactic(auto, using(crate::proofs::Kept::no_denial, crate::proofs::Kept::no_entry), unfolding(crate::specs::Why::no_marks, memory::specs::Many::many))]
fn entries_of(settings: Settings, family: u32, cause: Cause) -> [u8; 16]
    ensures { result ≡ entries_of settings family cause }
{
    match cause {
        Cause::NoPlace(Denial::NoEntry) => why_place::marks(settings, family),
        _ => [0; 16],
    }
}

// Why an arrival is answered as it is. Nothing changes.
#[tactic(auto, using(crate::proofs::Laws::explained))]
pub fn explain(
    settings: Settings,
    transfer: Transfer,
    arrival: &[u8],
    flash: &[u8],
    seen: &[u8],
    sectors: &[u8],
    main: &[u8],
    xip: &[u8],
) -> Why
    ensures { numbered why_number result ≡ numbered why_number (why_of settings (world transfer (lent_at flash.now seen.now sectors.now main.now xip.now)) arrival.now) }
{
    let reason = reason_of(settings, transfer, arrival, flash, seen, sectors, main, xip);
    let cause = reason.cause;
    let lens = Lengths {
        flash: flash.len(),
        main: main.len(),
        xip: xip.len(),
    };
    let b = uf2_block::fields(arrival);
    let kind = why_checks::kind_of(lens, transfer, b);
    let head = Head::new(kind, b.family, b.total);
    let discarded = discards(transfer, head, cause);
    let entries = entries_of(settings, b.family, cause);
    Why {
        reason,
        discarded,
        entries,
    }
}

// ---- a place asked for alone

// Rows 1 and 2.
#[tactic(auto, unfolding(crate::specs::Parts::place_part))]
fn place_row(settings: Settings, flash_len: usize) -> Result<(), Reason>
    ensures { result ≡ place_part settings flash_len }
{
    why_causes::lengths::flash_row(flash_len)?;
    settings_row(settings, flash_len)
}

// Where the place comes from, or why there is none.
#[tactic(auto, using(crate::proofs::Laws::placed_row))]
fn place_source(settings: Settings, flash_len: usize, family: u32) -> Result<Origin, Reason>
    ensures { result ≡ placed_of settings flash_len family }
{
    place_row(settings, flash_len)?;
    why_place::locate(settings, family).map_err(|x| Reason::new(
        Cause::NoPlace(x),
        family as u64,
        0,
    ))
}

#[tactic(auto, unfolding(crate::specs::Why::no_marks, memory::specs::Many::many))]
fn placed_marks(settings: Settings, family: u32, placed: Result<Origin, Reason>) -> [u8; 16]
    ensures { result ≡ placed_marks settings family placed }
{
    match placed {
        Ok(_) => [0; 16],
        Err(x) => entries_of(settings, family, x.cause),
    }
}

// Why a family has a place in a flash of so many bytes, or none.
#[tactic(auto, using(crate::proofs::Laws::place_explained))]
pub fn explain_place(settings: Settings, flash_len: usize, family: u32) -> WhyPlace
    ensures { numbered why_place_number result ≡ numbered why_place_number (why_place_of settings flash_len family) }
{
    let found = place_source(settings, flash_len, family);
    let entries = placed_marks(settings, family, found);
    WhyPlace {
        placed: found,
        entries,
    }
}
