// What an arrival can come to, and what the settings and the lengths say of it before it is judged.
#![tactic(auto)]

pub mod judged;

ghost use Rattle.std.specs.Prelude.{◌≡◌};
ghost use Rattle.placement.specs.Place.{StartsLow};
ghost use Rattle.arrival.specs.Arrive.{right_lengths};
ghost use Rattle.uf2_known.specs.Verdict.{known_of};

use partitions::Settings;
use transfer::{Accepted, Deed};
use uf2_block::Block;
use uf2_checks::{Lengths, PlacedBlock, Rooms};

// A block that is accepted: its number and what it holds, what is done with that, and what the block does to the transfer.
#[derive(Clone, Copy)]
pub struct Acceptance {
    pub placed: PlacedBlock,
    pub deed: Deed,
    pub accepted: Accepted,
}

// What is known of an arrival before it is judged: row 1's word, row 2's word, and what the settings say of its family.
#[derive(Clone, Copy)]
pub struct Known {
    pub right: bool,
    pub good: bool,
    pub rooms: Rooms,
}

impl Known {
    // The bytes of the seen map and of the sector map.
    pub const SEEN: usize = 16384;

    pub const SECTORS: usize = 1024;
}

// Are the lengths of arrival, flash, seen map, sector map, main RAM and XIP RAM right? A buffer of RAM is whole or empty.
pub fn lengths_right(a: usize, lens: Lengths, m: usize, k: usize) -> bool
    ensures { result ≡ right_lengths a lens m k }
{
    (a == Block::ARRIVAL)
        & memory::flash::right_length(lens.flash)
        & (m == Known::SEEN)
        & (k == Known::SECTORS)
        & ((lens.main == 0) | (lens.main == Lengths::MAIN_RAM))
        & ((lens.xip == 0) | (lens.xip == Lengths::XIP_RAM))
}

// What the settings and the lengths say of an arrival.
pub fn known_of(settings: Settings, lens: Lengths, m: usize, k: usize, arrival: &[u8]) -> Known
    ensures value { result ≡ known_of settings lens m k arrival.now }
    ensures low { StartsLow result.rooms.flash }
{
    let right = lengths_right(arrival.len(), lens, m, k);
    let good = partitions::validity::good(settings, lens.flash);
    let family = uf2_block::field(arrival, 28);
    let rooms = uf2_checks::family::rooms_for(settings, lens.flash, family);
    Known { right, good, rooms }
}
