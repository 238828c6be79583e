// Row 8 by its rules: what shuts a family out, what turns each entry down, and where a place comes from.
#![tactic(auto)]

ghost use Rattle.std.specs.Prelude.{◌≡◌, true};
ghost use Rattle.laws.specs.Numbered.{numbered};
ghost use Rattle.laws.specs.Sets.{any};
ghost use Rattle.placement.specs.Place.{used_count};
ghost use Rattle.why_place.specs.Placing.{
  denial_number,
  takes_at,
  flash_access,
  ram_access,
  access_number,
  mark_for,
  marks_of,
  table_spot,
  spot_of,
  spot_number,
};
ghost use Rattle.why_place.specs.Parts.{denied_if, without_access, FirstTaken};

use partitions::{Entry, Family, Settings};
use placement::passes::PassQuery;

// The setting or rule that shuts a family out: five of the flash without asking the table, one of the table, one of RAM.
#[derive(Clone, Copy)]
pub enum Denial {
    AbsoluteOff,
    Rp2040,
    ArmOff,
    RiscvOff,
    NotWithoutTable,
    NoEntry,
    NotForRam,
}

// The rules that give the whole flash.
#[derive(Clone, Copy)]
pub enum Rule {
    Absolute,
    NoTable,
}

// Where a place comes from: the rule that gives the whole flash, or the pass, 1 to 4, and the entry.
#[derive(Clone, Copy)]
pub enum Origin {
    Whole(Rule),
    Entry { pass: u8, entry: u8 },
}

impl Denial {
    pub fn number(self) -> u16
        ensures { result ≡ denial_number self }
    {
        match self {
            Denial::AbsoluteOff => 801,
            Denial::Rp2040 => 802,
            Denial::ArmOff => 803,
            Denial::RiscvOff => 804,
            Denial::NotWithoutTable => 805,
            Denial::NoEntry => 806,
            Denial::NotForRam => 807,
        }
    }
}

fn denied_if(yes: bool, denial: Denial) -> Result<(), Denial>
    ensures { result ≡ denied_if yes denial }
{
    if yes { Err(denial) } else { Ok(()) }
}

// Does an A entry that is used accept the family?
#[tactic(auto, using(laws::proofs::Laws::any_zero, laws::proofs::Laws::any_more, placement::proofs::Laws::used_most), unfolding(crate::specs::Placing::takes_at))]
fn any_takes(settings: Settings, family: u32) -> bool
    ensures { result ≡ any (used_count settings.count) (takes_at settings.table family) }
{
    for k in 0..placement::passes::used_count(settings.count) {
        let e = settings.table[k];
        if partitions::is_a(e) & partitions::accepts_family(e, family) {
            return true;
        }
    }
    false
}

// May a family that is neither absolute nor rp2040 have the flash where there is no table?
#[tactic(auto, unfolding(crate::specs::Parts::without_access))]
fn without_table(arm: bool, riscv: bool, family: u32) -> Result<(), Denial>
    ensures { result ≡ without_access arm riscv family }
{
    if family == Family::DATA {
        return Ok(());
    }
    if family == Family::ARM_S {
        return denied_if(!arm, Denial::ArmOff);
    }
    if family == Family::RISCV {
        return denied_if(!riscv, Denial::RiscvOff);
    }
    Err(Denial::NotWithoutTable)
}

// Does a rule shut the family out of the flash, and which first?
#[tactic(auto, using(crate::proofs::Laws::flash_absolute, crate::proofs::Laws::flash_rp2040, crate::proofs::Laws::flash_whole, crate::proofs::Laws::flash_table))]
pub fn flash_access(settings: Settings, family: u32) -> Result<(), Denial>
    ensures { numbered access_number result ≡ numbered access_number (flash_access settings family) }
{
    if family == Family::ABSOLUTE {
        return denied_if(!settings.absolute, Denial::AbsoluteOff);
    }
    if family == Family::RP2040 {
        return Err(Denial::Rp2040);
    }
    if settings.count == 0 {
        return without_table(settings.arm, settings.riscv, family);
    }
    denied_if(!any_takes(settings, family), Denial::NoEntry)
}

// Does the rule for RAM shut the family out?
#[tactic(auto, using(crate::proofs::Laws::ram_by))]
pub fn ram_access(settings: Settings, family: u32) -> Result<(), Denial>
    ensures { numbered access_number result ≡ numbered access_number (ram_access settings family) }
{
    denied_if(
        !placement::ram::ram_family(settings, family),
        Denial::NotForRam,
    )
}

// What turns a used entry down: 1 "B of", else 2 "doesn't accept".
fn mark(e: Entry, family: u32) -> u8
    ensures { result ≡ mark_for e family }
{
    if !partitions::is_a(e) {
        return 1;
    }
    if partitions::accepts_family(e, family) {
        return 0;
    }
    2
}

// The marks of all 16 entries.
#[tactic(auto, using(placement::proofs::Laws::used_most, crate::proofs::Laws::marked_none, crate::proofs::Laws::marked_more, crate::proofs::Laws::marked_all))]
pub fn marks(settings: Settings, family: u32) -> [u8; 16]
    ensures { result ≡ marks_of settings family }
{
    let mut out: [u8; 16] = [0; 16];
    for k in 0..placement::passes::used_count(settings.count) {
        out[k] = mark(settings.table[k], family);
    }
    out
}

// The first used entry that a pass takes.
#[tactic(auto, using(laws::proofs::Laws::any_zero, laws::proofs::Laws::any_more, placement::proofs::Laws::used_most), unfolding(crate::specs::Parts::takes_in))]
fn first_taken(settings: Settings, w: PassQuery, pass: usize) -> Option<u8>
    ensures { FirstTaken settings.table w pass (used_count settings.count) result }
{
    for k in 0..placement::passes::used_count(settings.count) {
        if placement::passes::takes(w, pass, settings.table[k]) {
            return Some(k as u8);
        }
    }
    None
}

// The first pass that takes an entry, and the first entry that it takes.
#[tactic(auto, using(laws::proofs::Laws::any_zero, laws::proofs::Laws::any_more, crate::proofs::Laws::pass_none))]
fn in_table(settings: Settings, family: u32) -> Result<Origin, Denial>
    requires { any (used_count settings.count) (takes_at settings.table family) ≡ true }
    ensures { result ≡ table_spot settings family }
{
    let w = placement::passes::query(settings, family);
    for pass in 0..4 {
        if let Some(entry) = first_taken(settings, w, pass) {
            return Ok(Origin::Entry {
                pass: pass as u8 + 1,
                entry,
            });
        }
    }
    Err(Denial::NoEntry)
}

// Where the place of a family comes from, or what shuts it out.
#[tactic(auto, using(crate::proofs::Laws::spot_refused, crate::proofs::Laws::spot_absolute, crate::proofs::Laws::spot_whole, crate::proofs::Laws::spot_table, crate::proofs::Laws::granted_takes))]
pub fn locate(settings: Settings, family: u32) -> Result<Origin, Denial>
    ensures { numbered spot_number result ≡ numbered spot_number (spot_of settings family) }
{
    flash_access(settings, family)?;
    if family == Family::ABSOLUTE {
        return Ok(Origin::Whole(Rule::Absolute));
    }
    if settings.count == 0 {
        return Ok(Origin::Whole(Rule::NoTable));
    }
    in_table(settings, family)
}
