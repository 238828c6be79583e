// The page of an accepted block: stored where it is one of RAM, planned where it is one of flash. What it would write to flash is a plan.
ghost use Rattle.std.specs.Prelude.{◌≡◌};
ghost use Rattle.memory.specs.Flash.{payload_of};
ghost use Rattle.uf2_commit.specs.Pages.{beside_at, beside_left, writing, page_writing, deed_writing};

use flash_plan::Plan;
use transfer::{Deed, Kind};

// A page of the kind. In RAM nothing but its bytes changes.
fn page(
    kind: Kind,
    at: usize,
    arrival: &[u8],
    sectors: &mut [u8],
    main: &mut [u8],
    xip: &mut [u8],
) -> Plan
    ensures { writing result (beside_left sectors.new main.new xip.new) ≡ page_writing kind at (payload_of arrival.now) (beside_at sectors.old main.old xip.old) }
{
    match kind {
        Kind::Flash => flash_plan::flash_page(at, sectors),
        Kind::MainRam => {
            memory::flash::store(main, at, arrival);
            Plan::Nothing
        }
        Kind::XipRam => {
            memory::flash::store(xip, at, arrival);
            Plan::Nothing
        }
    }
}

// Writes a page. A comment stores nothing, nor does what is kept.
pub fn write(
    deed: Deed,
    kind: Kind,
    at: usize,
    arrival: &[u8],
    sectors: &mut [u8],
    main: &mut [u8],
    xip: &mut [u8],
) -> Plan
    ensures { writing result (beside_left sectors.new main.new xip.new) ≡ deed_writing deed kind at (payload_of arrival.now) (beside_at sectors.old main.old xip.old) }
{
    match deed {
        Deed::Stores => page(kind, at, arrival, sectors, main, xip),
        Deed::Notes | Deed::Keeps => Plan::Nothing,
    }
}
