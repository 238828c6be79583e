// Rows 9 to 17 of a block: beside its place or window, and beside the transfer and the flash.
#![tactic(auto)]

ghost use Rattle.std.specs.Prelude.{◌≡◌};
ghost use Rattle.why_causes.specs.Causes.{reason_with};
ghost use Rattle.why_causes.specs.Checks.{by_numbers, row_of};
ghost use Rattle.why_checks.specs.Block.{start_at, size_at, room_of, kind_of, body_row, within, around};
ghost use Rattle.why_checks.specs.Parts.{fate_part, region_part, written_part, late_part};

use memory::flash::Flash;
use placement::Place;
use transfer::{Head, Kind, Transfer};
use uf2_block::{Block, Region};
use uf2_checks::Lengths;
use why_causes::{Cause, NotKept, Reason};

// Where the address window begins, which is where a place's first byte is seen.
const WINDOW: usize = 0x10000000;

// ---- rows 9 to 11

fn start_at(place: Option<Place>) -> usize
    ensures { result ≡ start_at place }
{
    place.map_or(0, |p| p.start)
}

fn size_at(place: Option<Place>) -> usize
    ensures { result ≡ size_at place }
{
    place.map_or(0, |p| p.len)
}

// The bytes that row 10 asks for: of the place, or of the window.
pub fn room_of(place: Option<Place>, kind: Kind) -> usize
    ensures { result ≡ room_of place kind }
{
    match kind {
        Kind::Flash => size_at(place),
        Kind::MainRam => Lengths::MAIN_RAM,
        Kind::XipRam => Lengths::XIP_RAM,
    }
}

// Rows 9 to 11; of a comment row 10 alone.
#[tactic(auto, unfolding(crate::specs::Block::body_row))]
pub fn body_row(size: usize, lens: Lengths, b: Block) -> Result<(), Reason>
    ensures { result ≡ row_of by_numbers (body_row size lens b) }
{
    if b.comment {
        return why_causes::number_checks::numbers_row(b.total, b.number, size);
    }
    let window = uf2_checks::block_kind::window_of(lens, b.address as usize);
    why_causes::page::page_row(window, size, b)
}

// The kind of a block.
#[tactic(auto, unfolding(crate::specs::Block::kind_of))]
pub fn kind_of(lens: Lengths, transfer: Transfer, b: Block) -> Kind
    ensures { result ≡ kind_of lens transfer.state b }
{
    if b.comment {
        return uf2_checks::block_kind::note_kind(lens, transfer, b);
    }
    let window = uf2_checks::block_kind::window_of(lens, b.address as usize);
    uf2_checks::block_kind::window_kind(window)
}

// ---- rows 12 to 17

// Rows 12, 13, 15 and 16.
#[tactic(auto, unfolding(crate::specs::Parts::fate_part))]
fn fate_row(
    transfer: Transfer,
    head: Head,
    number: u32,
    marked: bool,
    comment: bool,
) -> Result<(), Reason>
    ensures { result ≡ fate_part transfer.state head number marked comment }
{
    let total = head.total as u64;
    if why_causes::progress::is_done(transfer) {
        return why_causes::decides(Cause::Finished, number as u64, total);
    }
    if why_causes::progress::is_again(transfer, head, marked) {
        return why_causes::decides(Cause::Again, number as u64, total);
    }
    let count = why_causes::progress::raised(transfer, head);
    if total <= count {
        return why_causes::decides(Cause::Completed, count, total);
    }
    if comment {
        return why_causes::decides(Cause::Noted, count, total);
    }
    Ok(())
}

// Does a region lie in a place of so many bytes?
fn is_within(region: Region, size: usize) -> bool
    ensures { result ≡ within size region }
{
    let start = region.start as usize;
    WINDOW <= start && start - WINDOW + region.len as usize <= size
}

// Does it lie around a block at this address?
fn is_around(region: Region, address: u32) -> bool
    ensures { result ≡ around address region }
{
    let at = address as usize;
    let start = region.start as usize;
    let past = start + region.len as usize;
    (start <= at) & (at + Flash::PAYLOAD <= past)
}

// Row 14.
fn not_kept(x: NotKept, count: u64, total: u64) -> Result<(), Reason>
    ensures { result ≡ Err (reason_with (Cause.Written x) count total) }
{
    why_causes::decides(Cause::Written(x), count, total)
}

// Why a region's block is written and not kept, in a place of `size` bytes that starts at `start`.
#[tactic(auto, unfolding(crate::specs::Parts::region_part))]
fn region_row(
    flash: &[u8],
    start: usize,
    size: usize,
    address: u32,
    region: Region,
    count: u64,
    total: u64,
) -> Result<(), Reason>
    ensures { result ≡ region_part flash.now start size address region count total }
{
    let from = region.start as usize;
    let len = region.len as usize;
    if !((from % Flash::SECTOR == 0) & (len % Flash::SECTOR == 0)) {
        return not_kept(NotKept::Ragged, count, total);
    }
    if len == 0 {
        return not_kept(NotKept::Empty, count, total);
    }
    if !is_within(region, size) {
        return not_kept(NotKept::OutsidePlace, count, total);
    }
    if !is_around(region, address) {
        return not_kept(NotKept::NotAround, count, total);
    }
    if !uf2_block::regions::stands(flash, start, region) {
        return not_kept(NotKept::OtherDigest, count, total);
    }
    Ok(())
}

// Why a block is written and not kept.
#[tactic(auto, unfolding(crate::specs::Parts::written_part))]
fn written_row(
    flash: &[u8],
    start: usize,
    size: usize,
    kind: Kind,
    arrival: &[u8],
    count: u64,
    total: u64,
) -> Result<(), Reason>
    ensures { result ≡ written_part flash.now start size kind arrival.now count total }
{
    if !uf2_block::has_region(arrival) {
        return not_kept(NotKept::NoRegion, count, total);
    }
    if !transfer::same_kind(kind, Kind::Flash) {
        return not_kept(NotKept::InRam, count, total);
    }
    let region = uf2_block::read_region(arrival);
    let address = uf2_block::field(arrival, 12);
    region_row(flash, start, size, address, region, count, total)
}

// Rows 12 to 17.
#[tactic(auto, unfolding(crate::specs::Parts::late_part))]
pub fn late(
    transfer: Transfer,
    head: Head,
    place: Option<Place>,
    comment: bool,
    number: u32,
    arrival: &[u8],
    flash: &[u8],
    seen: &[u8],
) -> Reason
    ensures { result ≡ late_part transfer.state head place comment number arrival.now flash.now seen.now }
{
    let marked = memory::bitmap::marked(seen, number as usize);
    if let Err(x) = fate_row(transfer, head, number, marked, comment) {
        return x;
    }
    let count = why_causes::progress::raised(transfer, head);
    let total = head.total as u64;
    let start = start_at(place);
    let size = size_at(place);
    if let Err(y) = written_row(flash, start, size, head.kind, arrival, count, total) {
        return y;
    }
    Reason::new(Cause::Kept, count, total)
}
