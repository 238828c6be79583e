// A look at an arrival: what would happen, and nothing changes.
ghost use Rattle.std.specs.Prelude.{◌≡◌};
ghost use Rattle.laws.specs.Numbered.{numbered};
ghost use Rattle.arrival.specs.Arrive.{forecast_number, look_of};
ghost use Rattle.arrival.specs.Lending.{lent_at, world};
ghost use Rattle.uf2_receiver.specs.Looking.{previewed};

use partitions::Settings;
use transfer::{Answer, Transfer};
use uf2_checks::Lengths;

// What a look says: the answer, and whether a running transfer would be discarded.
#[derive(Clone, Copy)]
pub struct Preview {
    pub answer: Answer,
    pub discarded: bool,
}

// What would happen. Nothing changes.
pub fn look(
    settings: Settings,
    transfer: Transfer,
    arrival: &[u8],
    flash: &[u8],
    seen: &[u8],
    sectors: &[u8],
    main: &[u8],
    xip: &[u8],
) -> Preview
    ensures { numbered forecast_number (previewed result) ≡ numbered forecast_number (look_of settings (world transfer (lent_at flash.now seen.now sectors.now main.now xip.now)) arrival.now) }
{
    let lens = Lengths {
        flash: flash.len(),
        main: main.len(),
        xip: xip.len(),
    };
    let known = uf2_known::known_of(settings, lens, seen.len(), sectors.len(), arrival);
    let verdict = uf2_decide::judge(known, transfer, arrival, flash, seen, sectors, main, xip);
    match verdict {
        Err(answer) => Preview {
            answer,
            discarded: false,
        },
        Ok(acceptance) => {
            let would = acceptance.accepted;
            let answer = would.answer;
            Preview {
                answer,
                discarded: would.discarded,
            }
        }
    }
}
