// Row 1: the lengths of the arrival, the flash, the maps and the buffers of RAM. The first that is wrong decides.
ghost use Rattle.std.specs.Prelude.{◌≡◌};
ghost use Rattle.why_causes.specs.Causes.{reason_with};
ghost use Rattle.why_causes.specs.Checks.{by_numbers, row_of};
ghost use Rattle.why_causes.specs.Lengths.{flash_row, buffer_row, lengths_row};

use crate::{Cause, Length, Reason};
use memory::flash::Flash;
use uf2_block::Block;
use uf2_checks::Lengths;

// Row 1: this length is wrong.
fn bad_length(x: Length, got: usize, against: usize) -> Result<(), Reason>
    ensures { result ≡ Err (reason_with (Cause.BadBuffers x) got against) }
{
    crate::decides(Cause::BadBuffers(x), got as u64, against as u64)
}

// The flash's length, which a place asked for alone has too.
#[tactic(auto, unfolding(crate::specs::Checks::row_of, crate::specs::Lengths::flash_row))]
pub fn flash_row(len: usize) -> Result<(), Reason>
    ensures { result ≡ row_of by_numbers (flash_row len) }
{
    if len % Flash::SECTOR != 0 {
        return bad_length(Length::FlashRagged, len, Flash::SECTOR);
    }
    if len < Flash::MIN {
        return bad_length(Length::FlashUnder, len, Flash::MIN);
    }
    if Flash::MAX < len {
        return bad_length(Length::FlashOver, len, Flash::MAX);
    }
    Ok(())
}

// The maps, then the buffers of RAM, which may be empty.
#[tactic(auto, unfolding(crate::specs::Checks::row_of, crate::specs::Lengths::buffer_row))]
fn buffer_row(seen: usize, sectors: usize, main: usize, xip: usize) -> Result<(), Reason>
    ensures { result ≡ row_of by_numbers (buffer_row seen sectors main xip) }
{
    if seen != 16384 {
        return bad_length(Length::Seen, seen, 16384);
    }
    if sectors != 1024 {
        return bad_length(Length::Sectors, sectors, 1024);
    }
    if (main != 0) & (main != Lengths::MAIN_RAM) {
        return bad_length(Length::Main, main, Lengths::MAIN_RAM);
    }
    if (xip != 0) & (xip != Lengths::XIP_RAM) {
        return bad_length(Length::Xip, xip, Lengths::XIP_RAM);
    }
    Ok(())
}

// Row 1.
pub fn lengths_row(arrival: usize, lens: Lengths, seen: usize, sectors: usize) -> Result<(), Reason>
    ensures { result ≡ row_of by_numbers (lengths_row arrival lens seen sectors) }
{
    if arrival != Block::ARRIVAL {
        return bad_length(Length::Arrival, arrival, Block::ARRIVAL);
    }
    flash_row(lens.flash)?;
    buffer_row(seen, sectors, lens.main, lens.xip)
}
