// The screening of an arrival, rows 4 to 11: by what the settings say of its family, the lengths of the lent buffers, the transfer and
// the arrival alone.
ghost use Rattle.std.specs.Prelude.{◌≡◌, ◌≢◌, ◌<◌, ◌≤◌};
ghost use Rattle.laws.specs.Numbered.{numbered};
ghost use Rattle.uf2_block.specs.Block.{header_number};
ghost use Rattle.placement.specs.Place.{StartsLow};
ghost use Rattle.uf2_checks.specs.Screen.{
  base_of,
  placed,
  strayed,
  fitted,
  data_found,
  found,
  HeaderAnswer,
  low_rooms,
  screen_at,
  screening_number,
};
ghost use Rattle.uf2_checks.specs.Parts.{alignment_of, addressed, Above};

use crate::{Body, Lengths, PlacedBlock, Rooms};
use memory::flash::Flash;
use placement::Place;
use transfer::{Answer, Head, Kind, Transfer};
use uf2_block::{Block, HeaderError};

// Of what an address is a multiple: whole payloads in flash, any byte in RAM.
fn alignment(kind: Kind) -> usize
    ensures { result ≡ alignment_of kind }
{
    match kind {
        Kind::Flash => Flash::PAYLOAD,
        Kind::MainRam | Kind::XipRam => 1,
    }
}

// Row 11, of a data block in the window of its kind. The sum is of 64 bits, since it may pass 32.
fn at_address(kind: Kind, b: Block, start: usize, size: usize) -> Result<PlacedBlock, Answer>
    requires start_bound { start < 0x100000000000 }
    requires above { base_of kind ≤ b.address }
    ensures { result ≡ addressed kind start size b }
{
    let address = b.address as usize;
    let from = crate::block_kind::base(kind);
    let step = alignment(kind);
    if address % step != 0 {
        return Err(Answer::BadAddress);
    }
    let past = address + Flash::PAYLOAD;
    if size < past - from {
        return Err(Answer::BadAddress);
    }
    let at = start + (address - from);
    let head = Head::new(kind, b.family, b.total);
    let body = Body::Page(at);
    Ok(PlacedBlock {
        head,
        number: b.number,
        body,
    })
}

// A data block in the window of its kind, beside its place.
fn fits_place(kind: Kind, b: Block, start: usize, size: usize) -> Result<PlacedBlock, Answer>
    requires start_bound { start < 0x100000000000 }
    requires above { base_of kind ≤ b.address }
    ensures { result ≡ placed kind start size b }
{
    if b.size as usize != Flash::PAYLOAD {
        return Err(Answer::BadPayload);
    }
    if crate::numbers::bad_numbers(b, size) {
        return Err(Answer::BadNumbers);
    }
    at_address(kind, b, start, size)
}

// A data block in no window: its numbers are not asked.
fn stray(b: Block) -> Result<PlacedBlock, Answer>
    ensures { result ≡ strayed b }
{
    if b.size as usize != Flash::PAYLOAD {
        return Err(Answer::BadPayload);
    }
    Err(Answer::BadAddress)
}

fn fit(window: Option<Kind>, b: Block, start: usize, size: usize) -> Result<PlacedBlock, Answer>
    requires start_bound { start < 0x100000000000 }
    requires above { Above window b.address }
    ensures { result ≡ fitted window start size b }
{
    match window {
        None => stray(b),
        Some(kind) => fits_place(kind, b, start, size),
    }
}

// A data block, by the place of its window's kind.
fn check_data(window: Option<Kind>, place: Option<Place>, b: Block) -> Result<PlacedBlock, Answer>
    requires starts_low { StartsLow place }
    requires above { Above window b.address }
    ensures { result ≡ data_found window place b }
{
    match place {
        None => Err(Answer::NoPlace),
        Some(p) => fit(window, b, p.start, p.len),
    }
}

// Rows 8 to 11.
fn check(rooms: Rooms, lens: Lengths, transfer: Transfer, b: Block) -> Result<PlacedBlock, Answer>
    ensures { result ≡ found (low_rooms rooms) lens transfer.state b }
{
    if b.comment {
        let noted = crate::block_kind::note_kind(lens, transfer, b);
        let room = crate::family::room_in(rooms, noted);
        return crate::comments::check_note(noted, room, b);
    }
    let window = crate::block_kind::window_of(lens, b.address as usize);
    let kind = crate::block_kind::window_kind(window);
    let place = crate::family::room_in(rooms, kind);
    check_data(window, place, b)
}

// The answer to a header that yields no block, whatever the rows after it would say. A match has to name `Ok` too; nothing calls it so.
fn header_answer(header: Result<Block, HeaderError>) -> Answer
    requires { header_number header ≢ 0 }
    ensures { HeaderAnswer header result }
{
    match header {
        Err(HeaderError::NotBlock) => Answer::NotBlock,
        Err(HeaderError::Container) => Answer::Container,
        Err(HeaderError::NoFamily) => Answer::NoFamily,
        Ok(_) => Answer::NotBlock,
    }
}

// Rows 4 to 11: the first that refuses the arrival, or what it holds. `rooms` is what the settings say of the arrival's family.
// Kept, contract: let .. else, and the refusal returned at once, is the form that docs/DECISIONS.md names for the header.
pub fn screen(
    rooms: Rooms,
    lens: Lengths,
    transfer: Transfer,
    arrival: &[u8],
) -> Result<PlacedBlock, Answer>
    ensures { numbered screening_number result ≡ numbered screening_number (screen_at rooms lens transfer.state arrival.now) }
{
    let header = uf2_block::read(arrival);
    let Ok(b) = header else {
        return Err(header_answer(header));
    };
    check(rooms, lens, transfer, b)
}
