// What a block does once it is accepted: a page is stored or kept, a comment is noted. Nothing is written.
ghost use Rattle.std.specs.Prelude.{◌≡◌, ◌&&◌, Some};
ghost use Rattle.transfer.specs.Transfer.{same_kind};
ghost use Rattle.placement.specs.Place.{place_from};
ghost use Rattle.arrival.specs.Arrive.{stands_at, deed_of};
ghost use Rattle.uf2_decide.specs.Deeds.{page_deed};

use placement::Place;
use transfer::{Deed, Kind};
use uf2_checks::{Body, PlacedBlock};

// Does the region of an arrival, if it names one, count in a place of the flash, and have its digest there?
fn stands_in(start: usize, size: usize, flash: &[u8], arrival: &[u8]) -> bool
    ensures { result ≡ stands_at flash.now (Some (place_from start size)) arrival.now }
{
    if !uf2_block::has_region(arrival) {
        return false;
    }
    let region = uf2_block::read_region(arrival);
    let address = uf2_block::field(arrival, 12);
    if !uf2_block::covering::good(region, size, address) {
        return false;
    }
    uf2_block::regions::stands(flash, start, region)
}

fn stands_at(place: Option<Place>, flash: &[u8], arrival: &[u8]) -> bool
    ensures { result ≡ stands_at flash.now place arrival.now }
{
    match place {
        None => false,
        Some(p) => stands_in(p.start, p.len, flash, arrival),
    }
}

// A page is stored; in flash it is kept where it stands. The flash is read only there.
fn page_deed(kind: Kind, place: Option<Place>, flash: &[u8], arrival: &[u8]) -> Deed
    ensures { result ≡ page_deed (same_kind kind Kind.Flash && stands_at flash.now place arrival.now) }
{
    if !transfer::same_kind(kind, Kind::Flash) {
        return Deed::Stores;
    }
    if stands_at(place, flash, arrival) {
        return Deed::Keeps;
    }
    Deed::Stores
}

// What a block does once it is accepted, where `place` is its family's.
pub fn deed_of(placed: PlacedBlock, place: Option<Place>, flash: &[u8], arrival: &[u8]) -> Deed
    ensures { result ≡ deed_of (stands_at flash.now place arrival.now) placed }
{
    let named = placed.head;
    let kind = named.kind;
    let body = placed.body;
    match body {
        Body::Page(_) => page_deed(kind, place, flash, arrival),
        Body::Note => Deed::Notes,
    }
}
