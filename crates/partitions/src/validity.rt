// Whether settings are good for a flash length.
ghost use Rattle.std.specs.Prelude.{◌≡◌, ◌||◌, ◌≤◌};
ghost use Rattle.laws.specs.Sets.{any};
ghost use Rattle.partitions.specs.Settings.{good_settings};
ghost use Rattle.partitions.specs.Parts.{wrong_entry, shares_below};

use crate::{Entry, Settings};

// Do two used entries share a sector? Each is held against those before it.
fn any_shares(table: [Entry; Settings::ENTRIES], count: usize) -> bool
    requires { count ≤ 16 }
    ensures { result ≡ any count (shares_below table) }
{
    for k in 0..count {
        let first = table[k].first;
        let sectors = table[k].sectors;
        for j in 0..k {
            if crate::sectors::sectors_overlap(first, sectors, table[j].first, table[j].sectors) {
                return true;
            }
        }
    }
    false
}

// Is a used entry wrong by itself or by its link, or do two of them share a sector? Where each begins past the one before, none do.
fn any_bad(table: [Entry; Settings::ENTRIES], count: usize, flash_len: usize) -> bool
    requires { count ≤ 16 }
    ensures { result ≡ (any count (wrong_entry table flash_len) || any count (shares_below table)) }
{
    let mut rising = true;
    let mut past: usize = 0;
    for k in 0..count {
        let e = table[k];
        let first = e.first as usize;
        rising = rising & (past <= first);
        past = first + e.sectors as usize;
        if crate::alone_bad(e, flash_len) {
            return true;
        }
        if crate::unowned(e) {
            continue;
        }
        let j = crate::target(e) as usize;
        if k <= j {
            return true;
        }
        if !crate::is_a(table[j]) {
            return true;
        }
    }
    if rising {
        return false;
    }
    any_shares(table, count)
}

// Are the settings good for a flash of this many bytes?
pub fn good(settings: Settings, flash_len: usize) -> bool
    ensures { result ≡ good_settings settings flash_len }
{
    let current = settings.current;
    let count = settings.count as usize;
    if !crate::is_enabled(settings, current) {
        return false;
    }
    // no table, and so no copy of one
    if count == 0 {
        return true;
    }
    if Settings::ENTRIES < count {
        return false;
    }
    let table = settings.table;
    !any_bad(table, count, flash_len)
}
