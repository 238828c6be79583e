// The numbers of a block beside the size of its place: row 10.
ghost use Rattle.std.specs.Prelude.{◌≡◌};
ghost use Rattle.uf2_checks.specs.Screen.{bad_numbers};

use memory::flash::Flash;
use uf2_block::Block;

// Row 10. The product is of 64 bits, since it may pass 32.
pub fn bad_numbers(b: Block, size: usize) -> bool
    ensures { result ≡ bad_numbers size b }
{
    if b.total == 0 {
        return true;
    }
    if size < b.total as usize * Flash::PAYLOAD {
        return true;
    }
    b.total <= b.number
}
