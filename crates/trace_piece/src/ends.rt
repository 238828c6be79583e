// The two ends of a replay: both maps cleared before it, and how many records stand before where it stops.
ghost use Rattle.std.specs.Prelude.{◌≡◌, length};
ghost use Rattle.memory.specs.Bitmap.{unmarked};
ghost use Rattle.trace_piece.specs.Ends.{before_stop};

use crate::Stop;

// Takes every mark out of both maps.
pub fn clear_maps(seen: &mut [u8], sectors: &mut [u8])
    ensures { (seen.new ≡ unmarked (length seen.old)) × (sectors.new ≡ unmarked (length sectors.old)) }
{
    memory::bitmap::clear(seen);
    memory::bitmap::clear(sectors);
}

// How many records stand before the stop, of a trace with so many whole pieces.
pub fn before_stop(stop: Option<Stop>, pieces: usize) -> usize
    ensures { result ≡ before_stop pieces stop }
{
    match stop {
        None => pieces,
        Some(Stop::Bad(index)) => index,
        Some(Stop::Differs(index)) => index,
    }
}
