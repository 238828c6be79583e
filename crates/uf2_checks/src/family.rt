// Row 8: what the settings say of a family, and the place of a block by its kind.
ghost use Rattle.std.specs.Prelude.{◌≡◌};
ghost use Rattle.placement.specs.Place.{StartsLow};
ghost use Rattle.uf2_checks.specs.Screen.{rooms_of, low_place, low_rooms, room_in};

use crate::{Lengths, Rooms};
use partitions::Settings;
use placement::Place;
use transfer::Kind;

// No place begins here or above.
const STARTS: usize = 0x100000000000;

// What the settings say of a family, with a flash of so many bytes.
pub fn rooms_for(settings: Settings, flash_len: usize, family: u32) -> Rooms
    ensures value { result ≡ rooms_of settings flash_len family }
    ensures low { StartsLow result.flash }
{
    let flash = placement::find(settings, flash_len, family);
    let ram = placement::ram::ram_family(settings, family);
    Rooms { flash, ram }
}

// A place that is handed in may begin anywhere.
fn low_place(place: Option<Place>) -> Option<Place>
    ensures value { result ≡ low_place place }
    ensures low { StartsLow result }
{
    match place {
        Some(p) if STARTS <= p.start => None,
        _ => place,
    }
}

// The place of a block of each kind.
pub fn room_in(rooms: Rooms, kind: Kind) -> Option<Place>
    ensures value { result ≡ room_in (low_rooms rooms) kind }
    ensures low { StartsLow result }
{
    let flash = rooms.flash;
    match kind {
        Kind::Flash => low_place(flash),
        Kind::MainRam => placement::whole_if(rooms.ram, Lengths::MAIN_RAM),
        Kind::XipRam => placement::whole_if(rooms.ram, Lengths::XIP_RAM),
    }
}
