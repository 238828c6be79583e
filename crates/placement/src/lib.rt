// The place of a family: the whole flash, the bytes of a partition entry, or none.
#![tactic(auto)]

pub mod passes;
pub mod ram;

ghost use Rattle.std.specs.Prelude.{◌≡◌, ◌≤◌, length};
ghost use Rattle.laws.specs.Numbered.{numbered};
ghost use Rattle.placement.specs.Place.{
  chosen,
  gets_whole,
  whole_if,
  bytes_of,
  StartsLow,
  place_of,
  place_number,
  ask_of,
  place_answer_number,
};

use crate::passes::PassQuery;
use memory::flash::Flash;
use partitions::{Entry, Family, Settings};

// The place of a family, in bytes (01's term: place).
#[derive(Clone, Copy)]
pub struct Place {
    pub start: usize,
    pub len: usize,
}

// Why there is no answer to a place asked for alone.
#[derive(Clone, Copy)]
pub enum PlaceError {
    BadBuffers,
    BadSettings,
    NoPlace,
}

// Four passes over n entries, first to last, ending at the first match.
// Nested loops, left by a label with the chosen entry: the form that docs/DECISIONS.md names.
fn choose(table: [Entry; Settings::ENTRIES], n: usize, w: PassQuery) -> Option<usize>
    requires { n ≤ 16 }
    ensures { result ≡ chosen table n w }
{
    let found = 'search: {
        for pass in 0..4 {
            for i in 0..n {
                if crate::passes::takes(w, pass, table[i]) {
                    break 'search Some(i);
                }
            }
        }
        None
    };
    found
}

// The families that get the whole flash where there is no table.
pub fn gets_whole(arm: bool, riscv: bool, family: u32) -> bool
    ensures { result ≡ gets_whole arm riscv family }
{
    (family == Family::DATA)
        | ((family == Family::ARM_S) & arm)
        | ((family == Family::RISCV) & riscv)
}

// The whole of so many bytes, of the flash or of a window, or no place.
pub fn whole_if(yes: bool, len: usize) -> Option<Place>
    ensures value { result ≡ whole_if yes len }
    ensures low { StartsLow result }
{
    if yes {
        Some(Place { start: 0, len })
    } else {
        None
    }
}

fn bytes_of(e: Entry) -> Option<Place>
    ensures value { result ≡ bytes_of e }
    ensures low { StartsLow result }
{
    let start = e.first as usize * Flash::SECTOR;
    let len = e.sectors as usize * Flash::SECTOR;
    Some(Place { start, len })
}

// The place of a family. The settings are taken to be good; of others it looks at no more than 16 entries.
pub fn find(settings: Settings, flash_len: usize, family: u32) -> Option<Place>
    ensures result_value { numbered place_number result ≡ numbered place_number (place_of settings flash_len family) }
    ensures low { StartsLow result }
{
    let count = settings.count;
    if family == Family::ABSOLUTE {
        return whole_if(settings.absolute, flash_len);
    }
    if family == Family::RP2040 {
        return None;
    }
    if count == 0 {
        return whole_if(gets_whole(settings.arm, settings.riscv, family), flash_len);
    }
    let w = crate::passes::query(settings, family);
    let table = settings.table;
    match choose(table, crate::passes::used_count(count), w) {
        None => None,
        Some(k) => bytes_of(table[k]),
    }
}

// A place asked for alone.
pub fn ask(settings: Settings, flash_len: usize, family: u32) -> Result<Place, PlaceError>
    ensures { numbered place_answer_number result ≡ numbered place_answer_number (ask_of settings flash_len family) }
{
    if !memory::flash::right_length(flash_len) {
        return Err(PlaceError::BadBuffers);
    }
    if !partitions::validity::good(settings, flash_len) {
        return Err(PlaceError::BadSettings);
    }
    find(settings, flash_len, family).ok_or(PlaceError::NoPlace)
}

// The number of a refusal, and 0 for a place that is found.
pub fn number(a: Result<Place, PlaceError>) -> u8
    ensures { result ≡ place_answer_number a }
{
    match a {
        Err(PlaceError::BadBuffers) => 1,
        Err(PlaceError::BadSettings) => 2,
        Err(PlaceError::NoPlace) => 8,
        Ok(_) => 0,
    }
}
