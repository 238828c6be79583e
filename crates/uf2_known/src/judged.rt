// What is the same for many arrivals, judged once: row 1's and row 2's words for all of them, and what the settings say of a family for a run
// of arrivals of it.
ghost use Rattle.std.specs.Prelude.{◌≡◌};
ghost use Rattle.placement.specs.Place.{StartsLow};
ghost use Rattle.uf2_known.specs.Judged.{judged_of, rooms_next};

use partitions::Settings;
use placement::Place;
use uf2_block::Block;
use uf2_checks::{Lengths, Rooms};

// A family, and what the settings say of it.
#[derive(Clone, Copy)]
pub struct FamilyRooms {
    pub family: u32,
    pub rooms: Rooms,
}

// Row 1's word for whole arrivals, row 2's word, and what the settings say of a family.
#[derive(Clone, Copy)]
pub struct Judgement {
    pub right: bool,
    pub good: bool,
    pub kept: FamilyRooms,
}

// Lengths, settings and a family, judged.
pub fn judge(settings: Settings, lens: Lengths, m: usize, k: usize, family: u32) -> Judgement
    ensures value { result ≡ judged_of settings lens m k family }
    ensures low { StartsLow result.kept.rooms.flash }
{
    let right = crate::lengths_right(Block::ARRIVAL, lens, m, k);
    let good = partitions::validity::good(settings, lens.flash);
    let rooms = uf2_checks::family::rooms_for(settings, lens.flash, family);
    let kept = FamilyRooms { family, rooms };
    Judgement { right, good, kept }
}

// The same place, made anew: what is kept from arrival to arrival is then its fields alone, and not the unused bytes between them, which
// would be copied at each.
fn same_place(place: Option<Place>) -> Option<Place>
    ensures { result ≡ place }
{
    match place {
        None => None,
        Some(p) => Some(Place {
            start: p.start,
            len: p.len,
        }),
    }
}

// What the settings say of a family: they are asked anew where it is not the one before.
fn rooms_next(before: FamilyRooms, settings: Settings, flash_len: usize, family: u32) -> Rooms
    ensures value { result ≡ (rooms_next before settings flash_len family).rooms }
    ensures low { StartsLow before.rooms.flash → StartsLow result.flash }
{
    if before.family == family {
        return before.rooms;
    }
    uf2_checks::family::rooms_for(settings, flash_len, family)
}

// A family, and what the settings say of it, after an arrival of the family before.
pub fn next(before: FamilyRooms, settings: Settings, flash_len: usize, family: u32) -> FamilyRooms
    ensures value { result ≡ rooms_next before settings flash_len family }
    ensures low { StartsLow before.rooms.flash → StartsLow result.rooms.flash }
{
    let found = rooms_next(before, settings, flash_len, family);
    let place = found.flash;
    let flash = same_place(place);
    let ram = found.ram;
    FamilyRooms {
        family,
        rooms: Rooms { flash, ram },
    }
}
