// Does what an arrival holds stand in the memory? For C: a library of its own, so that the call is compiled as one piece.
#![tactic(auto)]

ghost use Rattle.std.specs.Prelude.{◌≡◌};
ghost use Rattle.uf2_verify.specs.Stands.{memory_at};
ghost use Rattle.standapi.specs.Stands.{stands_call_of};

use uf2_checks::Lengths;
use uf2_known::Known;

// The number of a refusal, 95 where it stands, 96 where it differs. Nothing is written.
#[unsafe(no_mangle)]
pub extern "C" fn uf2_stands(
    settings: &[u8],
    arrival: &[u8],
    flash: &[u8],
    main: &[u8],
    xip: &[u8],
) -> u32
    ensures { result ≡ stands_call_of settings.now arrival.now (memory_at flash.now main.now xip.now) }
{
    let lens = Lengths {
        flash: flash.len(),
        main: main.len(),
        xip: xip.len(),
    };
    let known = call_bytes::known::known_from(settings, lens, Known::SEEN, Known::SECTORS, arrival);
    let told = uf2_verify::stands_known(known, arrival, flash, main, xip);
    uf2_verify::number(told) as u32
}
