// One piece of a file: what is wrong with it, by the maps of the pieces before it. Where nothing is, it is entered in them.
ghost use Rattle.std.specs.Prelude.{◌≡◌};
ghost use Rattle.uf2_checks.specs.Screen.{screen_at};
ghost use Rattle.file_check.specs.Check.{piece_at};
ghost use Rattle.file_checking.specs.Pieces.Parts.{maps, touching_in, cells_with, offsets_with, entered, beside_by, maps_by, screened_by, maps_then};

use crate::earlier::Piece;
use file_check::FileFault;
use transfer::{Head, State, Transfer};
use uf2_checks::{Body, Lengths, PlacedBlock, Rooms};

// Has a payload a byte in common with one that the maps hold?
fn touching(body: Body, cells: &[u8], offsets: &[u8]) -> bool
    ensures { result ≡ touching_in body cells.now offsets.now }
{
    match body {
        Body::Page(at) => memory::cells::touches(cells, offsets, at),
        Body::Note => false,
    }
}

// Where a payload starts is entered.
fn put_start(body: Body, cells: &mut [u8], offsets: &mut [u8])
    ensures { (cells.new ≡ cells_with body cells.old) × (offsets.new ≡ offsets_with body offsets.old) }
{
    if let Body::Page(at) = body {
        memory::cells::enter(cells, offsets, at);
    }
}

// What is wrong with a block that passes, beside the first piece's head and the maps.
#[tactic(auto, unfolding(crate::specs::Pieces::Parts::beside_by))]
fn beside(
    head: Head,
    placed: PlacedBlock,
    piece: Piece,
    numbers: &[u8],
    cells: &[u8],
    offsets: &[u8],
) -> Result<(), FileFault>
    ensures { result ≡ beside_by head placed piece.entry.file.now piece.entry.i (maps numbers.now cells.now offsets.now) }
{
    let own = placed.head;
    if own.family != head.family {
        return Err(FileFault::OtherFamily(piece.i));
    }
    if own.total != head.total {
        return Err(FileFault::OtherTotal(piece.i));
    }
    let kind = own.kind;
    let first = head.kind;
    if !transfer::same_kind(kind, first) {
        return Err(FileFault::OtherKind(piece.i));
    }
    if memory::bitmap::marked(numbers, placed.number as usize) {
        return Err(FileFault::SameNumber(piece.i, piece.first_number()));
    }
    let body = placed.body;
    if touching(body, cells, offsets) {
        return Err(FileFault::Overlap(piece.i, piece.first_overlap()));
    }
    Ok(())
}

// A block that passes is judged, and entered where nothing is wrong.
#[tactic(auto, unfolding(crate::specs::Pieces::Parts::maps_by))]
fn settle(
    head: Head,
    placed: PlacedBlock,
    piece: Piece,
    numbers: &mut [u8],
    cells: &mut [u8],
    offsets: &mut [u8],
) -> Result<(), FileFault>
    ensures value { result ≡ beside_by head placed piece.entry.file.now piece.entry.i (maps numbers.old cells.old offsets.old) }
    ensures left { maps numbers.new cells.new offsets.new ≡ maps_by head placed piece.entry.file.now piece.entry.i (maps numbers.old cells.old offsets.old) }
{
    beside(head, placed, piece, numbers, cells, offsets)?;
    let body = placed.body;
    memory::bitmap::mark(numbers, placed.number as usize);
    put_start(body, cells, offsets);
    Ok(())
}

// What is wrong with a piece. `rooms` is what the settings say of its family, `head` what the first piece says.
pub(crate) fn check_piece(
    rooms: Rooms,
    lens: Lengths,
    head: Head,
    piece: Piece,
    numbers: &mut [u8],
    cells: &mut [u8],
    offsets: &mut [u8],
) -> Result<(), FileFault>
    ensures value { result ≡ screened_by head piece.entry.file.now piece.entry.i (maps numbers.old cells.old offsets.old) (screen_at rooms lens State.Idle (piece_at piece.entry.file.now piece.entry.i)) }
    ensures left { maps numbers.new cells.new offsets.new ≡ maps_then head piece.entry.file.now piece.entry.i (maps numbers.old cells.old offsets.old) (screen_at rooms lens State.Idle (piece_at piece.entry.file.now piece.entry.i)) }
{
    let arrival = piece.bytes();
    let screening = uf2_checks::block_checks::screen(rooms, lens, Transfer::new(), arrival);
    match screening {
        Err(answer) => Err(FileFault::Refused(piece.i, answer)),
        Ok(placed) => settle(head, placed, piece, numbers, cells, offsets),
    }
}
