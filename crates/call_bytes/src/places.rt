// What the call for a place does. Settings are bytes in the layout of `layout`.
ghost use Rattle.std.specs.Prelude.{◌≡◌, length};
ghost use Rattle.call_bytes.specs.PlacesCalls.{Low, place_call, place_call_of, ask_bytes};

use placement::{Place, PlaceError};

// The bytes of a place: its start and its length.
const PLACE: usize = 8;

// Writes the place that was found.
fn tell(asked: Result<Place, PlaceError>, place: &mut [u8]) -> u32
    requires place_len { length place.old ≡ 8 }
    requires low { Low asked }
    ensures { place_call result place.new ≡ place_call_of place.old asked }
{
    let n = placement::number(asked) as u32;
    let Ok(found) = asked else {
        return n;
    };
    uf2_block::put(place, 0, found.start as u32);
    uf2_block::put(place, 4, found.len as u32);
    n
}

// A place asked for alone: 0 and its start and length in `place`, or 1, 2 or 8.
pub fn ask(settings: &[u8], flash_len: usize, family: u32, place: &mut [u8]) -> u32
    ensures { place_call result place.new ≡ ask_bytes settings.now flash_len family place.old }
{
    if place.len() != PLACE {
        return 1;
    }
    let s = settings_layout::read_settings(settings);
    tell(placement::ask(s, flash_len, family), place)
}
