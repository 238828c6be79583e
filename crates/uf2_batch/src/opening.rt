// What is the same for many arrivals, judged of what is lent before the first of them.
ghost use Rattle.std.specs.Prelude.{◌≡◌, length};
ghost use Rattle.placement.specs.Place.{StartsLow};
ghost use Rattle.uf2_receiver.specs.Receiver.{lent_at};
ghost use Rattle.uf2_known.specs.Judged.{judged_of};
ghost use Rattle.uf2_batch.specs.Opening.{lens_of};

use partitions::Settings;
use uf2_checks::Lengths;
use uf2_known::judged::Judgement;

// Settings, a family and the lent buffers, judged.
pub fn judge_lent(
    settings: Settings,
    family: u32,
    flash: &[u8],
    seen: &[u8],
    sectors: &[u8],
    main: &[u8],
    xip: &[u8],
) -> Judgement
    ensures value { result ≡ judged_of settings (lens_of (lent_at flash.now seen.now sectors.now main.now xip.now)) (length seen.now) (length sectors.now) family }
    ensures low { StartsLow result.kept.rooms.flash }
{
    let lens = Lengths {
        flash: flash.len(),
        main: main.len(),
        xip: xip.len(),
    };
    uf2_known::judged::judge(settings, lens, seen.len(), sectors.len(), family)
}
