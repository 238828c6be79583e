// Reasons as bytes: why an arrival is answered as it is, and why a family has a place or none. whyapi_c exports the two calls for C.
#![tactic(auto)]

pub mod reason_bytes;
pub mod told;

ghost use Rattle.std.specs.Prelude.{◌≡◌};
ghost use Rattle.arrival.specs.Lending.{lent_at};
ghost use Rattle.whyapi.specs.WhyCall.{call_return, why_call_of, place_call_of};

// Why an arrival is answered as it is: what `uf2_look` returns, and the reason. Nothing else is written.
#[tactic(auto, using(crate::proofs::Laws::why_call_lem))]
pub fn uf2_why(
    settings: &[u8],
    transfer: &[u8],
    arrival: &[u8],
    flash: &[u8],
    seen: &[u8],
    sectors: &[u8],
    main: &[u8],
    xip: &[u8],
    out: &mut [u8],
) -> u32
    ensures { call_return result out.new ≡ why_call_of settings.now transfer.now arrival.now (lent_at flash.now seen.now sectors.now main.now xip.now) out.old }
{
    let s = settings_layout::read_settings(settings);
    let t = transfer_layout::read_transfer(transfer);
    let why = why::explain(s, t, arrival, flash, seen, sectors, main, xip);
    crate::reason_bytes::tell(why, settings, transfer, out)
}

// Why a family has a place in a flash of so many bytes, or none: 0, 1, 2 or 8, and the reason.
#[tactic(auto, using(crate::proofs::Laws::place_call_lem))]
pub fn uf2_why_place(settings: &[u8], flash_len: usize, family: u32, out: &mut [u8]) -> u32
    ensures { call_return result out.new ≡ place_call_of settings.now flash_len family out.old }
{
    let s = settings_layout::read_settings(settings);
    let why = why::explain_place(s, flash_len, family);
    crate::reason_bytes::tell_place(why, settings, out)
}
