// The first earlier piece of a file that a piece collides with: one that has its number, or a byte address of it.
ghost use Rattle.std.specs.Prelude.{◌≡◌, ◌<◌, ◌/◌, length};
ghost use Rattle.laws.specs.Sets.{least};
ghost use Rattle.file_check.specs.Check.{piece_at, near, same_number, overlaps};
ghost use Rattle.file_checking.specs.Pieces.Overlap.{overlap_of};

use uf2_block::Block;

// The 512 bytes of a piece of a file.
// Kept, contract: `piece` of region_checking is this too. Neither is public, since no public function has a `requires`, and these have one.
pub(crate) fn bytes_at(file: &[u8], i: usize) -> &[u8]
    requires { i < length file.now / 512 }
    ensures { result.now ≡ piece_at file.now i }
{
    let from = i * Block::ARRIVAL;
    let to = from + Block::ARRIVAL;
    &file[from..to]
}

// A piece of a file, by its index.
#[derive(Clone, Copy)]
pub(crate) struct Piece<'a> {
    pub(crate) file: &'a [u8],
    pub(crate) i: usize,
    ghost here: { i < length file.now / 512 },
}

// Have two ranges of 256 bytes one in common?
fn close(a: u32, b: u32) -> bool
    ensures { result ≡ near a b }
{
    a.abs_diff(b) < 256
}

// Are two pieces data, with a byte address in common?
fn overlapping(own: &[u8], its: &[u8]) -> bool
    ensures { result ≡ overlap_of own.now its.now }
{
    let b = uf2_block::field(own, 12);
    let a = uf2_block::field(its, 12);
    file_check::is_data(own) & file_check::is_data(its) & close(a, b)
}

impl<'a> Piece<'a> {
    // Its bytes.
    pub(crate) fn bytes(self) -> &'a [u8]
        ensures { result.now ≡ piece_at self.entry.file.now self.entry.i }
    {
        bytes_at(self.file, self.i)
    }

    // The first piece before it that has its number, and its index where none has.
    pub(crate) fn first_number(self) -> usize
        ensures { result ≡ least self.entry.i (same_number self.entry.file.now self.entry.i) }
    {
        let file = self.file;
        let number = uf2_block::field(self.bytes(), 20);
        (0..self.i)
            .find(|j| uf2_block::field(bytes_at(file, *j), 20) == number)
            .unwrap_or(self.i)
    }

    // The first piece before it that has a byte address of it, and its index where none has.
    pub(crate) fn first_overlap(self) -> usize
        ensures { result ≡ least self.entry.i (overlaps self.entry.file.now self.entry.i) }
    {
        let file = self.file;
        let own = self.bytes();
        (0..self.i)
            .find(|j| overlapping(own, bytes_at(file, *j)))
            .unwrap_or(self.i)
    }
}
