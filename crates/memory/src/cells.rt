// Where ranges of 256 bytes start, in two lent maps: of each cell of 256 bytes whether one starts in it, and how far from the cell's start.
ghost use Rattle.std.specs.Prelude.{◌≡◌, ◌/◌, ◌%◌, ◌<◌, get_or, set};
ghost use Rattle.memory.specs.Bitmap.{with_mark};
ghost use Rattle.memory.specs.Cells.{touches_in, left_in};

// How far from its cell's start a range starts; past the map's end at it.
fn offset_of(offsets: &[u8], cell: usize) -> usize
    ensures { result ≡ get_or offsets.now cell 0 }
{
    if cell < offsets.len() {
        usize::from(offsets[cell])
    } else {
        0
    }
}

// Does a range that starts in the cell, `offset` bytes from its start, have a byte in common with one that starts in the cell before or after?
fn touches_beside(cells: &[u8], offsets: &[u8], cell: usize, offset: usize) -> bool
    requires { cell < 0x1000000000000000 }
    ensures { result ≡ left_in cells.now offsets.now cell offset }
{
    let next = cell + 1;
    let after = crate::bitmap::marked(cells, next);
    let near = offset_of(offsets, next);
    if after & (near < offset) {
        return true;
    }
    if cell == 0 {
        return false;
    }
    let last = cell - 1;
    let before = crate::bitmap::marked(cells, last);
    let far = offset_of(offsets, last);
    before & (offset < far)
}

// Does the range from `at` on have a byte in common with one that the maps hold?
pub fn touches(cells: &[u8], offsets: &[u8], at: usize) -> bool
    ensures { result ≡ touches_in cells.now offsets.now at }
{
    let cell = at / 256;
    if crate::bitmap::marked(cells, cell) {
        return true;
    }
    touches_beside(cells, offsets, cell, at % 256)
}

// The range from `at` on is entered.
pub fn enter(cells: &mut [u8], offsets: &mut [u8], at: usize)
    ensures { (cells.new ≡ with_mark cells.old (at / 256)) × (offsets.new ≡ set offsets.old (at / 256) (at % 256)) }
{
    let cell = at / 256;
    crate::bitmap::mark(cells, cell);
    if cell < offsets.len() {
        offsets[cell] = (at % 256) as u8;
    }
}
