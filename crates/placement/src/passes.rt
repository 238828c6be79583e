// The passes over the table: what one asks of an entry. Which entry they choose is `place`'s.
ghost use Rattle.std.specs.Prelude.{◌≡◌};
ghost use Rattle.placement.specs.Passes.{other_arch, image_of, is_marked, is_bootable, pass_allows, pass_takes, used_count, pass_query_of};

use partitions::{Arch, Entry, Family, Settings};

// What the passes have to know of the settings: the family, the current architecture, and whether the family is its image
// or, where switching is on, the other's.
#[derive(Clone, Copy)]
pub struct PassQuery {
    pub family: u32,
    pub current: Arch,
    pub for_current: bool,
    pub for_other: bool,
}

fn other(a: Arch) -> Arch
    ensures { result ≡ other_arch a }
{
    match a {
        Arch::Arm => Arch::RiscV,
        Arch::RiscV => Arch::Arm,
    }
}

fn image(a: Arch) -> u32
    ensures { result ≡ image_of a }
{
    match a {
        Arch::Arm => Family::ARM_S,
        Arch::RiscV => Family::RISCV,
    }
}

// Marked not bootable for the architecture?
fn marked(e: Entry, a: Arch) -> bool
    ensures { result ≡ is_marked e a }
{
    match a {
        Arch::Arm => e.not_bootable_arm,
        Arch::RiscV => e.not_bootable_riscv,
    }
}

fn bootable(e: Entry, a: Arch) -> bool
    ensures { result ≡ is_bootable e a }
{
    partitions::unowned(e) & !marked(e, a)
}

// What a pass asks besides; 01's passes 1 to 4 are counted from 0.
// Kept, contract: `pass_allows` counts the passes, and so does this.
fn allows(w: PassQuery, pass: usize, e: Entry) -> bool
    ensures { result ≡ pass_allows w pass e }
{
    let current = w.current;
    match pass {
        0 => w.for_current & bootable(e, current),
        1 => w.for_other & bootable(e, other(current)),
        2 => partitions::unowned(e),
        _ => true,
    }
}

// Does a pass take the entry?
pub fn takes(w: PassQuery, pass: usize, e: Entry) -> bool
    ensures { result ≡ pass_takes w pass e }
{
    // shuts most entries out, before their families are compared
    if !allows(w, pass, e) {
        return false;
    }
    partitions::is_a(e) & partitions::accepts_family(e, w.family)
}

// How many entries are looked at, of the 16 that there are.
pub fn used_count(count: u8) -> usize
    ensures { result ≡ used_count count }
{
    (count as usize).min(Settings::ENTRIES)
}

// What the passes have to know, of a family.
pub fn query(settings: Settings, family: u32) -> PassQuery
    ensures { result ≡ pass_query_of settings family }
{
    let current = settings.current;
    let o = other(current);
    let on = partitions::is_enabled(settings, o);
    PassQuery {
        family,
        current,
        for_current: family == image(current),
        for_other: settings.auto_switch & on & (family == image(o)),
    }
}
