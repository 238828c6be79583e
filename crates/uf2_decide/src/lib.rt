// What an arrival comes to: the checks in their order, and what an accepted block does. Nothing is written.
#![tactic(auto)]

pub mod deeds;
pub mod settling;

ghost use Rattle.std.specs.Prelude.{◌≡◌};
ghost use Rattle.laws.specs.Numbered.{numbered};
ghost use Rattle.uf2_checks.specs.Screen.{screen_at};
ghost use Rattle.arrival.specs.Arrive.{stands_at, after_screening};
ghost use Rattle.arrival.specs.Lending.{lent_at, world};
ghost use Rattle.uf2_known.specs.Verdict.{decision, decision_number, known_decision};

use transfer::{Answer, Transfer};
use uf2_checks::{Lengths, Rooms};
use uf2_known::{Acceptance, Known};

// Rows 4 to 17.
fn screened(
    rooms: Rooms,
    lens: Lengths,
    transfer: Transfer,
    arrival: &[u8],
    flash: &[u8],
    seen: &[u8],
) -> Result<Acceptance, Answer>
    ensures { decision result ≡ after_screening transfer.state seen.now (stands_at flash.now rooms.flash arrival.now) (screen_at rooms lens transfer.state arrival.now) }
{
    let place = rooms.flash;
    let placed = uf2_checks::block_checks::screen(rooms, lens, transfer, arrival)?;
    crate::settling::settle(transfer, placed, place, arrival, flash, seen)
}

// Every check, in its order. What the settings and the lengths say is handed in.
pub fn judge(
    known: Known,
    transfer: Transfer,
    arrival: &[u8],
    flash: &[u8],
    seen: &[u8],
    sectors: &[u8],
    main: &[u8],
    xip: &[u8],
) -> Result<Acceptance, Answer>
    ensures { numbered decision_number (decision result) ≡ numbered decision_number (known_decision known (world transfer (lent_at flash.now seen.now sectors.now main.now xip.now)) arrival.now) }
{
    if !known.right {
        return Err(Answer::BadBuffers);
    }
    if !known.good {
        return Err(Answer::BadSettings);
    }
    if !transfer.sound() {
        return Err(Answer::BadState);
    }
    let lens = Lengths {
        flash: flash.len(),
        main: main.len(),
        xip: xip.len(),
    };
    screened(known.rooms, lens, transfer, arrival, flash, seen)
}
