// What an accepted block writes beside the flash: the maps and, of a RAM block, its bytes. What it would write to flash is a plan.
#![tactic(auto)]

pub mod clearing;
pub mod pages;
pub mod receipts;

ghost use Rattle.std.specs.Prelude.{◌≡◌};
ghost use Rattle.memory.specs.Flash.{payload_of};
ghost use Rattle.arrival.specs.Arrive.{at_of};
ghost use Rattle.uf2_commit.specs.Entering.{beside_at, beside_left, entering, entering_of};

use flash_plan::Plan;
use transfer::{Accepted, Deed};
use uf2_checks::{Body, PlacedBlock};

// The storage address of a page. A comment has none, and nothing asks for its.
fn page_at(body: Body) -> usize
    ensures { result ≡ at_of body }
{
    match body {
        Body::Page(at) => at,
        Body::Note => 0,
    }
}

// Enters a block that is accepted into the maps, and a RAM block into RAM.
pub fn enter(
    placed: PlacedBlock,
    deed: Deed,
    accepted: Accepted,
    arrival: &[u8],
    seen: &mut [u8],
    sectors: &mut [u8],
    main: &mut [u8],
    xip: &mut [u8],
) -> Plan
    ensures { entering result seen.new (beside_left sectors.new main.new xip.new) ≡ entering_of placed deed accepted (payload_of arrival.now) seen.old (beside_at sectors.old main.old xip.old) }
{
    let number = placed.number as usize;
    let body = placed.body;
    let at = page_at(body);
    let head = placed.head;
    let kind = head.kind;
    crate::clearing::clear_maps(accepted.clears, seen, sectors);
    let planned = crate::pages::write(deed, kind, at, arrival, sectors, main, xip);
    memory::bitmap::mark(seen, number);
    planned
}
