// Row 2 by its conditions: what makes settings bad, and the numbers that a fault compares.
#![tactic(auto)]

pub mod first;
pub mod sharing;

ghost use Rattle.std.specs.Prelude.{◌≡◌};
ghost use Rattle.partitions.specs.Settings.{links_to_b};
ghost use Rattle.why_settings.specs.Faults.{fault_number, slot_at, first_reserved, end_of, tested_of};

use memory::flash::Flash;
use partitions::{Entry, Family, Settings};

// What makes settings bad, in 01's order. A number is an entry's; of two the second is the other entry's.
#[derive(Clone, Copy)]
pub enum Fault {
    ArchOff,
    CountOver,
    NoSectors(u8),
    PastFlash(u8),
    Shares(u8, u8),
    LinksUp(u8),
    LinksToB(u8),
    ManyUsers(u8),
    ReservedUser(u8),
}

// The number that a fault tests, and what it is tested against.
#[derive(Clone, Copy)]
pub struct Comparison {
    pub got: u64,
    pub against: u64,
}

impl Fault {
    pub fn number(self) -> u16
        ensures { result ≡ fault_number self }
    {
        match self {
            Fault::ArchOff => 201,
            Fault::CountOver => 202,
            Fault::NoSectors(_) => 203,
            Fault::PastFlash(_) => 204,
            Fault::Shares(_, _) => 205,
            Fault::LinksUp(_) => 206,
            Fault::LinksToB(_) => 207,
            Fault::ManyUsers(_) => 208,
            Fault::ReservedUser(_) => 209,
        }
    }
}

// The first user family that is reserved, 0 where none is.
#[tactic(auto, using(crate::proofs::Laws::reserved_hit, crate::proofs::Laws::reserved_none))]
pub fn first_reserved(e: Entry) -> u32
    ensures { result ≡ first_reserved e }
{
    let n = e.user_count as usize;
    for k in 0..4 {
        let user = e.users[k];
        if (k < n) & partitions::reserved(user) {
            return user;
        }
    }
    0
}

// Does entry k link to an entry that is "B of"? Past the table's end there is none.
pub fn links_to_b(settings: Settings, k: usize) -> bool
    ensures { result ≡ links_to_b settings.table k }
{
    if Settings::ENTRIES <= k {
        return false;
    }
    let e = settings.table[k];
    let j = partitions::target(e) as usize;
    if partitions::unowned(e) {
        return false;
    }
    if Settings::ENTRIES <= j {
        return false;
    }
    let o = settings.table[j];
    !partitions::is_a(o)
}

// Entry k, and a blank one past the table.
fn slot(settings: Settings, k: u8) -> Entry
    ensures { result ≡ slot_at settings.table k }
{
    let i = k as usize;
    if i < Settings::ENTRIES {
        settings.table[i]
    } else {
        Entry::blank()
    }
}

// Where an entry ends, in bytes.
fn end_of(e: Entry) -> u64
    ensures { result ≡ end_of e }
{
    (e.first as u64 + e.sectors as u64) * Flash::SECTOR as u64
}

// The number that a fault tests, and what it is tested against.
pub fn numbers(settings: Settings, flash_len: usize, fault: Fault) -> Comparison
    ensures { result ≡ tested_of settings flash_len fault }
{
    let current = settings.current;
    let (got, against) = match fault {
        Fault::ArchOff => (u64::from(partitions::is_enabled(settings, current)), 0),
        Fault::CountOver => (settings.count as u64, 16),
        Fault::NoSectors(k) => (slot(settings, k).sectors as u64, 0),
        Fault::PastFlash(k) => (end_of(slot(settings, k)), flash_len as u64),
        Fault::Shares(k, j) => (j as u64, k as u64),
        Fault::LinksUp(k) | Fault::LinksToB(k) => (
            partitions::target(slot(settings, k)) as u64,
            k as u64,
        ),
        Fault::ManyUsers(k) => (slot(settings, k).user_count as u64, 4),
        Fault::ReservedUser(k) => (
            first_reserved(slot(settings, k)) as u64,
            Family::RP2040 as u64,
        ),
    };
    Comparison { got, against }
}
