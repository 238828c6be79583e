// The first fault of settings: each of 01's conditions for all used entries before the next for any.
ghost use Rattle.std.specs.Prelude.{◌≡◌, ◌≤◌, ◌<◌};
ghost use Rattle.laws.specs.Numbered.{numbered};
ghost use Rattle.why_settings.specs.Faults.{condition_at, condition_for, each, first_in, first_shared, first_fault, finding_number};

use crate::Fault;
use memory::flash::Flash;
use partitions::{Entry, Settings};

// Does entry k share a sector with another, and with which first?
#[tactic(auto, using(crate::proofs::Laws::least_most, crate::proofs::Laws::shared_by, crate::proofs::Laws::bad_is))]
fn shares(settings: Settings, k: usize) -> Option<Fault>
    requires count_bound { settings.count ≤ 16 }
    requires k_bound { k < 16 }
    ensures { result ≡ first_shared settings.table settings.count k }
{
    let j = crate::sharing::first_other(settings, k);
    (j < settings.count as usize).then_some(Fault::Shares(k as u8, j as u8))
}

// One condition, counted from 0, of entry k.
// Kept, contract: `rule` is the number by which the definition `condition_at` counts 01's conditions.
#[tactic(auto, using(crate::proofs::Laws::first_sharing, crate::proofs::Laws::reserved_user_case), unfolding(crate::specs::Faults::condition_at, crate::specs::Faults::first_in))]
fn condition_at(settings: Settings, flash_len: usize, rule: usize, k: usize) -> Option<Fault>
    requires count_bound { settings.count ≤ 16 }
    requires k_bound { k < 16 }
    ensures { result ≡ first_in settings flash_len (condition_at settings.count rule k) }
{
    let e = settings.table[k];
    let entry = k as u8;
    match rule {
        0 => (e.sectors == 0).then_some(Fault::NoSectors(entry)),
        1 => (flash_len < (e.first as usize + e.sectors as usize) * Flash::SECTOR).then_some(
            Fault::PastFlash(entry),
        ),
        2 => shares(settings, k),
        3 => (!partitions::unowned(e) & (k <= partitions::target(e) as usize)).then_some(
            Fault::LinksUp(entry),
        ),
        4 => crate::links_to_b(settings, k).then_some(Fault::LinksToB(entry)),
        5 => (Entry::USERS < e.user_count).then_some(Fault::ManyUsers(entry)),
        _ => partitions::reserved(crate::first_reserved(e)).then_some(Fault::ReservedUser(entry)),
    }
}

// One condition, counted from 0, of each used entry, first to last.
#[tactic(auto, using(crate::proofs::Laws::each_zero, crate::proofs::Laws::each_more, crate::proofs::Laws::each_hit), unfolding(crate::specs::Faults::condition_for))]
fn first_of_rule(settings: Settings, flash_len: usize, rule: usize) -> Option<Fault>
    requires count_bound { settings.count ≤ 16 }
    requires rule_bound { rule < 7 }
    ensures { result ≡ first_in settings flash_len (condition_for settings.count rule) }
{
    for k in 0..settings.count as usize {
        if let Some(x) = condition_at(settings, flash_len, rule, k) {
            return Some(x);
        }
    }
    None
}

// Each condition for all used entries before the next for any.
#[tactic(auto, using(crate::proofs::Laws::each_zero, crate::proofs::Laws::each_more, crate::proofs::Laws::each_hit), unfolding(crate::specs::Faults::condition_for))]
fn first_of_entries(settings: Settings, flash_len: usize) -> Option<Fault>
    requires { settings.count ≤ 16 }
    ensures { result ≡ first_in settings flash_len (each (condition_for settings.count) 7) }
{
    for rule in 0..7 {
        if let Some(x) = first_of_rule(settings, flash_len, rule) {
            return Some(x);
        }
    }
    None
}

// The first fault of settings for a flash of this many bytes.
#[tactic(auto, using(crate::proofs::Laws::first_off, crate::proofs::Laws::first_over_lem, crate::proofs::Laws::first_entries))]
pub fn first(settings: Settings, flash_len: usize) -> Option<Fault>
    ensures { numbered finding_number result ≡ numbered finding_number (first_fault settings flash_len) }
{
    let current = settings.current;
    if !partitions::is_enabled(settings, current) {
        return Some(Fault::ArchOff);
    }
    if Settings::ENTRIES < settings.count as usize {
        return Some(Fault::CountOver);
    }
    first_of_entries(settings, flash_len)
}
