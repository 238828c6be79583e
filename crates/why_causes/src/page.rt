// Rows 9 to 11 of a data block: in its window, or in none.
ghost use Rattle.std.specs.Prelude.{◌≡◌, Some, None};
ghost use Rattle.why_causes.specs.Checks.{by_numbers, row_of};
ghost use Rattle.why_causes.specs.Pages.{address_in, page_row};

use crate::Reason;
use transfer::Kind;
use uf2_block::Block;

// Where the windows of RAM end.
const MAIN_END: usize = 0x20082000;

const XIP_END: usize = 0x14000000;

// Row 11 of a data block in the window of its kind.
#[tactic(auto, unfolding(crate::specs::Pages::address_in))]
fn address_in(kind: Kind, address: u32, size: usize) -> Result<(), Reason>
    ensures { result ≡ row_of by_numbers (address_in kind address size) }
{
    match kind {
        Kind::Flash => crate::number_checks::address_row(address, size),
        Kind::MainRam => crate::number_checks::window_row(address, MAIN_END),
        Kind::XipRam => crate::number_checks::window_row(address, XIP_END),
    }
}

// Rows 9 to 11 of a data block in a window.
fn inside_row(kind: Kind, size: usize, b: Block) -> Result<(), Reason>
    ensures { result ≡ row_of by_numbers (page_row (Some kind) size b) }
{
    crate::number_checks::payload_row(b.size)?;
    crate::number_checks::numbers_row(b.total, b.number, size)?;
    address_in(kind, b.address, size)
}

// Rows 9, 11 and 10 of a data block in no window.
fn outside_row(size: usize, b: Block) -> Result<(), Reason>
    ensures { result ≡ row_of by_numbers (page_row None size b) }
{
    crate::number_checks::payload_row(b.size)?;
    crate::number_checks::stray_row(b.address)?;
    crate::number_checks::numbers_row(b.total, b.number, size)
}

pub fn page_row(window: Option<Kind>, size: usize, b: Block) -> Result<(), Reason>
    ensures { result ≡ row_of by_numbers (page_row window size b) }
{
    match window {
        None => outside_row(size, b),
        Some(kind) => inside_row(kind, size, b),
    }
}
