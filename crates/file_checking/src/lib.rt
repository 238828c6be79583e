// A file checked before it is sent: every piece in turn, then whether every number came, then whether a region is named.
#![tactic(auto)]

mod earlier;
mod piece;
mod regions;

ghost use Rattle.std.specs.Prelude.{◌≡◌, ◌<◌, ◌/◌, length, OnOk};
ghost use Rattle.memory.specs.Bitmap.{unmarked};
ghost use Rattle.file_check.specs.Check.{whole_of, pieces_of, right_maps, check_of};
ghost use Rattle.file_checking.specs.Pieces.Parts.{maps, file_head, Holds};
ghost use Rattle.file_checking.specs.Parts.{first_of, Opened, kind_if, guarded_by, Counted, Cleared};

use crate::earlier::Piece;
use file_check::FileFault;
use partitions::Settings;
use placement::Place;
use transfer::{Head, Kind};
use uf2_block::Block;
use uf2_checks::Lengths;
use uf2_known::Known;
use uf2_known::judged::FamilyRooms;

// The bytes of the map of offsets: one for each cell of 256 bytes of main RAM, which is the larger one.
const OFFSETS: usize = 2080;

// The kind of the first piece: of data that of its window, and of a comment flash.
fn kind_of(page: bool, lens: Lengths, address: u32) -> Kind
    ensures { result ≡ kind_if page lens address }
{
    if page {
        return uf2_checks::block_kind::window_kind(uf2_checks::block_kind::window_of(
            lens,
            address as usize,
        ));
    }
    Kind::Flash
}

// What the first piece says the file is.
fn head_of(lens: Lengths, file: &[u8]) -> Head
    requires { 0 < length file.now / 512 }
    ensures { result ≡ file_head lens file.now }
{
    let first = crate::earlier::bytes_at(file, 0);
    let page = file_check::is_data(first);
    let address = uf2_block::field(first, 12);
    let family = uf2_block::field(first, 28);
    let total = uf2_block::field(first, 24);
    let kind = kind_of(page, lens, address);
    Head::new(kind, family, total)
}

// Every piece in turn, up to the first with which something is wrong. `head` is what the first piece says.
fn each_piece(
    settings: Settings,
    lens: Lengths,
    head: Head,
    file: &[u8],
    numbers: &mut [u8],
    cells: &mut [u8],
    offsets: &mut [u8],
) -> Result<(), FileFault>
    requires opened { Opened settings lens file.now (maps numbers.old cells.old offsets.old) }
    requires first { head ≡ file_head lens file.now }
    ensures value { result ≡ first_of settings lens file.now }
    ensures held { OnOk result (Holds settings lens file.now (length file.now / 512) (maps numbers.new cells.new offsets.new)) }
{
    let n = file.len() / Block::ARRIVAL;
    let rooms = uf2_checks::family::rooms_for(settings, lens.flash, head.family);
    let mut kept = FamilyRooms {
        family: head.family,
        rooms,
    };
    for i in 0..n {
        let piece = Piece { file, i };
        let family = uf2_block::field(piece.bytes(), 28);
        kept = uf2_known::judged::next(kept, settings, lens.flash, family);
        crate::piece::check_piece(kept.rooms, lens, head, piece, numbers, cells, offsets)?;
    }
    Ok(())
}

// Of a file for the flash the first piece that names a region that counts.
#[tactic(auto, using(file_check::proofs::First::first_some, file_check::proofs::First::first_none), unfolding(crate::specs::Parts::guarded_by))]
fn guarded(place: Option<Place>, kind: Kind, file: &[u8]) -> Result<(), FileFault>
    ensures { result ≡ guarded_by place kind file.now }
{
    if !transfer::same_kind(kind, Kind::Flash) {
        return Ok(());
    }
    match crate::regions::first_guarding(place, file) {
        Some(i) => Err(FileFault::Guarded(i)),
        None => Ok(()),
    }
}

// Every piece is sound: whether every number came, and whether a region is named.
fn whole(
    settings: Settings,
    lens: Lengths,
    head: Head,
    file: &[u8],
    numbers: &[u8],
) -> Result<(), FileFault>
    requires counted { Counted file.now numbers.now }
    requires first { head ≡ file_head lens file.now }
    ensures { result ≡ whole_of settings lens file.now }
{
    let total = head.total;
    if file.len() / Block::ARRIVAL != total as usize {
        return Err(FileFault::Missing(trace_counts::gaps::first_missing(numbers, total) as usize));
    }
    let rooms = uf2_checks::family::rooms_for(settings, lens.flash, head.family);
    let place = rooms.flash;
    let kind = head.kind;
    guarded(place, kind, file)
}

// The pieces of a file that has some, with cleared maps.
fn every_piece(
    settings: Settings,
    lens: Lengths,
    file: &[u8],
    numbers: &mut [u8],
    cells: &mut [u8],
    offsets: &mut [u8],
) -> Result<(), FileFault>
    requires opened { Opened settings lens file.now (maps numbers.old cells.old offsets.old) }
    requires some { 0 < length file.now / 512 }
    ensures { result ≡ pieces_of settings lens file.now }
{
    let head = head_of(lens, file);
    each_piece(settings, lens, head, file, numbers, cells, offsets)?;
    whole(settings, lens, head, file, numbers)
}

// Are the lengths of a board's buffers and of the three maps right?
#[tactic(auto, unfolding(file_check::specs::Check::right_maps))]
fn right_maps(lens: Lengths, a: usize, b: usize, c: usize) -> bool
    ensures { result ≡ right_maps lens a b c }
{
    uf2_known::lengths_right(Block::ARRIVAL, lens, a, Known::SECTORS)
        & (b == Known::SEEN)
        & (c == OFFSETS)
}

// The conditions in their order, with cleared maps.
#[tactic(auto, unfolding(file_check::specs::Check::check_of))]
fn judge(
    settings: Settings,
    lens: Lengths,
    file: &[u8],
    numbers: &mut [u8],
    cells: &mut [u8],
    offsets: &mut [u8],
) -> Result<(), FileFault>
    requires { Cleared (maps numbers.old cells.old offsets.old) }
    ensures { result ≡ check_of settings lens (length numbers.old) (length cells.old) (length offsets.old) file.now }
{
    if !right_maps(lens, numbers.len(), cells.len(), offsets.len()) {
        return Err(FileFault::BadBuffers);
    }
    if !partitions::validity::good(settings, lens.flash) {
        return Err(FileFault::BadSettings);
    }
    if file.len() % Block::ARRIVAL != 0 {
        return Err(FileFault::Ragged);
    }
    if file.len() == 0 {
        return Err(FileFault::Empty);
    }
    every_piece(settings, lens, file, numbers, cells, offsets)
}

// Kept, proof: three maps and no struct of them. The borrow checker does not cover a call that lends two fields of a struct, as `put_start` needs.
fn clear_maps(numbers: &mut [u8], cells: &mut [u8], offsets: &mut [u8])
    ensures { (numbers.new ≡ unmarked (length numbers.old)) × (cells.new ≡ unmarked (length cells.old)) × (offsets.new ≡ unmarked (length offsets.old)) }
{
    memory::bitmap::clear(numbers);
    memory::bitmap::clear(cells);
    memory::bitmap::clear(offsets);
}

// What is wrong with a file for a board with such settings and buffers of such lengths: the first thing, or nothing. Three maps are lent, of 16,384,
// 16,384 and 2,080 bytes. They are left all zero, whatever the answer.
pub fn check(
    settings: Settings,
    lens: Lengths,
    file: &[u8],
    numbers: &mut [u8],
    cells: &mut [u8],
    offsets: &mut [u8],
) -> Result<(), FileFault>
    ensures value { result ≡ check_of settings lens (length numbers.old) (length cells.old) (length offsets.old) file.now }
    ensures left { (numbers.new ≡ unmarked (length numbers.old)) × (cells.new ≡ unmarked (length cells.old)) × (offsets.new ≡ unmarked (length offsets.old)) }
{
    clear_maps(numbers, cells, offsets);
    let found = judge(settings, lens, file, numbers, cells, offsets);
    clear_maps(numbers, cells, offsets);
    found
}
