// Rows 12 to 17: what a block that has passed the screening comes to. Nothing is written.
ghost use Rattle.std.specs.Prelude.{◌≡◌, Ok};
ghost use Rattle.arrival.specs.Arrive.{stands_at, after_screening};
ghost use Rattle.uf2_known.specs.Verdict.{decision, accepted_as};

use placement::Place;
use transfer::{Accepted, Answer, Deed, Transfer};
use uf2_checks::PlacedBlock;
use uf2_known::Acceptance;

// A block that rows 12 and 13 let through, with what it would do to the transfer if it were stored.
fn accept(
    placed: PlacedBlock,
    place: Option<Place>,
    stored: Accepted,
    arrival: &[u8],
    flash: &[u8],
) -> Result<Acceptance, Answer>
    ensures { decision result ≡ accepted_as (stands_at flash.now place arrival.now) placed stored }
{
    let deed = crate::deeds::deed_of(placed, place, flash, arrival);
    let accepted = transfer::retold::doing(stored, deed);
    Ok(Acceptance {
        placed,
        deed,
        accepted,
    })
}

// Rows 12 to 17, of a block that has passed the screening. The flash is read where it is accepted, and not for 12 and 13.
pub fn settle(
    transfer: Transfer,
    placed: PlacedBlock,
    place: Option<Place>,
    arrival: &[u8],
    flash: &[u8],
    seen: &[u8],
) -> Result<Acceptance, Answer>
    ensures { decision result ≡ after_screening transfer.state seen.now (stands_at flash.now place arrival.now) (Ok placed) }
{
    let head = placed.head;
    let number = placed.number as usize;
    let marked = memory::bitmap::marked(seen, number);
    let trial = transfer.step(head, marked, Deed::Stores);
    match trial {
        Err(unchanged) => Err(unchanged.answer),
        Ok(stored) => accept(placed, place, stored, arrival, flash),
    }
}
