// What settings as bytes, and the lengths, say of an arrival. Where a board has no partition table none is built and none is copied.
ghost use Rattle.std.specs.Prelude.{◌≡◌, ◌&&◌, leb};
ghost use Rattle.placement.specs.Place.{StartsLow, place_of};
ghost use Rattle.partitions.specs.Settings.{good_settings, family_data, family_arm_ns};
ghost use Rattle.uf2_known.specs.Verdict.{known_of};
ghost use Rattle.settings_layout.specs.Layout.{count_from, settings_from};

use partitions::Family;
use placement::Place;
use settings_layout::entries::{byte, on};
use uf2_checks::{Lengths, Rooms};
use uf2_known::Known;

// Row 2's word: without a table only the current architecture is asked.
fn good(bytes: &[u8], flash_len: usize) -> bool
    requires { count_from bytes.now ≡ 0 }
    ensures { result ≡ good_settings (settings_from bytes.now) flash_len }
{
    if byte(bytes, 2) == 0 {
        on(bytes, 0)
    } else {
        on(bytes, 1)
    }
}

// The place of a family.
fn place(bytes: &[u8], flash_len: usize, family: u32) -> Option<Place>
    requires { count_from bytes.now ≡ 0 }
    ensures value { result ≡ place_of (settings_from bytes.now) flash_len family }
    ensures low { StartsLow result }
{
    if family == Family::ABSOLUTE {
        return placement::whole_if(on(bytes, 4), flash_len);
    }
    let arm = on(bytes, 0);
    let riscv = on(bytes, 1);
    placement::whole_if(placement::gets_whole(arm, riscv, family), flash_len)
}

// May blocks of the family go to RAM?
fn may_go_to_ram(family: u32) -> bool
    ensures { result ≡ (leb family_data family && leb family family_arm_ns) }
{
    (Family::DATA <= family) & (family <= Family::ARM_NS)
}

// All of it, without a table.
fn known_without(bytes: &[u8], lens: Lengths, m: usize, k: usize, arrival: &[u8]) -> Known
    requires { count_from bytes.now ≡ 0 }
    ensures value { result ≡ known_of (settings_from bytes.now) lens m k arrival.now }
    ensures low { StartsLow result.rooms.flash }
{
    let right = uf2_known::lengths_right(arrival.len(), lens, m, k);
    let good = good(bytes, lens.flash);
    let family = uf2_block::field(arrival, 28);
    let flash = place(bytes, lens.flash, family);
    let ram = may_go_to_ram(family);
    Known {
        right,
        good,
        rooms: Rooms { flash, ram },
    }
}

// What settings and lengths say of an arrival; m and k are the lengths of the two maps.
pub fn known_from(bytes: &[u8], lens: Lengths, m: usize, k: usize, arrival: &[u8]) -> Known
    ensures value { result ≡ known_of (settings_from bytes.now) lens m k arrival.now }
    ensures low { StartsLow result.rooms.flash }
{
    if settings_layout::count(bytes) == 0 {
        known_without(bytes, lens, m, k, arrival)
    } else {
        let settings = settings_layout::read_settings(bytes);
        uf2_known::known_of(settings, lens, m, k, arrival)
    }
}
