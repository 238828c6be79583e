// Rows 9 to 11 by their numbers: the size of a payload, the total and the number, the address.
ghost use Rattle.std.specs.Prelude.{◌≡◌};
ghost use Rattle.why_causes.specs.Causes.{reason_with};
ghost use Rattle.why_causes.specs.Checks.{by_numbers, row_of};
ghost use Rattle.why_causes.specs.Numbers.{payload_row, numbers_row, address_row, stray_row, window_row};

use crate::{Address, Cause, Numbers, Reason};
use memory::flash::Flash;

// Row 10.
fn bad_numbers(x: Numbers, got: u64, against: u64) -> Result<(), Reason>
    ensures { result ≡ Err (reason_with (Cause.BadNumbers x) got against) }
{
    crate::decides(Cause::BadNumbers(x), got, against)
}

// Row 11.
fn bad_address(x: Address, got: u64, against: u64) -> Result<(), Reason>
    ensures { result ≡ Err (reason_with (Cause.BadAddress x) got against) }
{
    crate::decides(Cause::BadAddress(x), got, against)
}

// Row 9.
#[tactic(auto, unfolding(crate::specs::Checks::row_of, crate::specs::Numbers::payload_row))]
pub fn payload_row(size: u32) -> Result<(), Reason>
    ensures { result ≡ row_of by_numbers (payload_row size) }
{
    if size as usize != Flash::PAYLOAD {
        return crate::decides(Cause::BadPayload, size as u64, Flash::PAYLOAD as u64);
    }
    Ok(())
}

// Row 10, in a place or a window of so many bytes. The product is of 64 bits, since it may pass 32.
#[tactic(auto, unfolding(crate::specs::Checks::row_of, crate::specs::Numbers::numbers_row))]
pub fn numbers_row(total: u32, number: u32, size: usize) -> Result<(), Reason>
    ensures { result ≡ row_of by_numbers (numbers_row total number size) }
{
    let bytes = total as u64 * 256;
    if total == 0 {
        return bad_numbers(Numbers::TotalZero, total as u64, 0);
    }
    if (size as u64) < bytes {
        return bad_numbers(Numbers::TotalPast, bytes, size as u64);
    }
    if total <= number {
        return bad_numbers(Numbers::NumberPast, number as u64, total as u64);
    }
    Ok(())
}

// Row 11, of an address of flash, beside a place of so many bytes. The sum is of 64 bits, since it may pass 32.
#[tactic(auto, unfolding(crate::specs::Checks::row_of, crate::specs::Numbers::address_row))]
pub fn address_row(address: u32, size: usize) -> Result<(), Reason>
    ensures { result ≡ row_of by_numbers (address_row address size) }
{
    let at = address as u64;
    if at < 0x10000000 {
        return bad_address(Address::Below, at, 0x10000000);
    }
    if at % 256 != 0 {
        return bad_address(Address::Ragged, at, 256);
    }
    let low = at - 0x10000000;
    let past = low + 256;
    if (size as u64) < past {
        return bad_address(Address::Past, past, size as u64);
    }
    Ok(())
}

// Row 11, of an address in no window.
#[tactic(auto, unfolding(crate::specs::Checks::row_of, crate::specs::Numbers::stray_row))]
pub fn stray_row(address: u32) -> Result<(), Reason>
    ensures { result ≡ row_of by_numbers (stray_row address) }
{
    let at = address as u64;
    if at < 0x10000000 {
        return bad_address(Address::Below, at, 0x10000000);
    }
    if 0x12000000 <= at {
        return bad_address(Address::NoWindow, at, 0x12000000);
    }
    Ok(())
}

// Row 11, of an address in a RAM window that ends at `end`.
#[tactic(auto, unfolding(crate::specs::Checks::row_of, crate::specs::Numbers::window_row))]
pub fn window_row(address: u32, end: usize) -> Result<(), Reason>
    ensures { result ≡ row_of by_numbers (window_row address «end») }
{
    let past = address as u64 + 256;
    if (end as u64) < past {
        return bad_address(Address::PastWindow, past, end as u64);
    }
    Ok(())
}
