// The settings: what the device may run, and its partition table; what one entry of it says by itself.
#![tactic(auto)]

pub mod sectors;
pub mod validity;

ghost use Rattle.std.specs.Prelude.{◌≡◌, ◌<◌, ℕ, Bool};
ghost use Rattle.laws.specs.Sets.{any};
ghost use Rattle.partitions.specs.Settings.{is_a, is_unowned, link_kind, link_target, arch_from, has_user, accepts, is_reserved, reserved_user, enabled, blank_entry, arm_only};
ghost use Rattle.partitions.specs.Parts.{alone_bad, user_meets};

use memory::flash::Flash;

// What an entry is linked to (01's terms: owned by, B of).
#[derive(Clone, Copy)]
pub enum Link {
    Unlinked,
    OwnedBy(u8),
    BOf(u8),
}

#[derive(Clone, Copy, PartialEq, Eq)]
pub enum Arch {
    Arm,
    RiscV,
}

#[derive(Clone, Copy)]
pub struct Entry {
    pub first: u32,
    pub sectors: u32,
    pub users: [u32; 4],
    pub data: bool,
    pub arm_s: bool,
    pub riscv: bool,
    pub arm_ns: bool,
    pub user_count: u8,
    pub not_bootable_arm: bool,
    pub not_bootable_riscv: bool,
    pub link: Link,
    // "don't restart": kept for the board, and no answer depends on it
    pub no_restart: bool,
}

// The table stands first, so that nothing unused stands before it and settings are copied as one piece.
#[derive(Clone, Copy)]
pub struct Settings {
    pub table: [Entry; Settings::ENTRIES],
    pub arm: bool,
    pub riscv: bool,
    pub current: Arch,
    pub auto_switch: bool,
    pub absolute: bool,
    pub count: u8,
}

// The architecture by whether it is RISC-V.
impl From<bool> for Arch {
    ghost from_gives = { λ x y. y ≡ arch_from x };

    fn from(riscv: bool) -> Arch {
        if riscv { Arch::RiscV } else { Arch::Arm }
    }
}

impl Link {
    // 0 for none, 1 for "owned by", 2 for "B of".
    pub fn kind(self) -> u8
        ensures value { result ≡ link_kind self }
        ensures low { result < 3 }
    {
        match self {
            Link::Unlinked => 0,
            Link::OwnedBy(_) => 1,
            Link::BOf(_) => 2,
        }
    }

    // The index that it names, 0 where it names none.
    pub fn index(self) -> u8
        ensures { result ≡ link_target self }
    {
        match self {
            Link::Unlinked => 0,
            Link::OwnedBy(k) | Link::BOf(k) => k,
        }
    }
}

impl Entry {
    // The most user families.
    pub const USERS: u8 = 4;

    // No sectors, and nothing that it accepts.
    pub fn blank() -> Self
        ensures { result ≡ blank_entry }
    {
        Self {
            first: 0,
            sectors: 0,
            users: [0; 4],
            data: false,
            arm_s: false,
            riscv: false,
            arm_ns: false,
            user_count: 0,
            not_bootable_arm: false,
            not_bootable_riscv: false,
            link: Link::Unlinked,
            no_restart: false,
        }
    }
}

impl Settings {
    // The entries of a table.
    pub const ENTRIES: usize = 16;
}

// The families that have a meaning of their own.
#[derive(Clone, Copy)]
pub struct Family {
    pub id: u32,
}

impl Settings {
    // No partition table, Arm alone, absolute allowed or not.
    pub fn arm_only(absolute: bool) -> Self
        ensures { result ≡ arm_only absolute }
    {
        let e = Entry::blank();
        let table = [e; Settings::ENTRIES];
        Self {
            arm: true,
            riscv: false,
            current: Arch::Arm,
            auto_switch: false,
            absolute,
            count: 0,
            table,
        }
    }
}

impl Family {
    pub const RP2040: u32 = 0xe48bff56;

    pub const ABSOLUTE: u32 = 0xe48bff57;

    pub const DATA: u32 = 0xe48bff58;

    pub const ARM_S: u32 = 0xe48bff59;

    pub const RISCV: u32 = 0xe48bff5a;

    pub const ARM_NS: u32 = 0xe48bff5b;
}

// An A partition?
pub fn is_a(e: Entry) -> bool
    ensures { result ≡ is_a e }
{
    !matches!(e.link, Link::BOf(_))
}

// Linked to no other?
pub fn unowned(e: Entry) -> bool
    ensures { result ≡ is_unowned e }
{
    matches!(e.link, Link::Unlinked)
}

// Is there a used family, of at most 4, for which the test answers yes?
#[tactic(auto, unfolding(laws::specs::Sets::any))]
fn any_user<F: Fn(u32) -> bool>(e: Entry, test: F) -> bool
    requires { F.IsAlwaysCallable test }
    ensures { (p : ℕ → Bool) → ((x : ℕ) (r : Bool) → F.post test x r → r ≡ p x) → result ≡ any 4 (user_meets p e) }
{
    let n = e.user_count;
    let users = e.users;
    ((0 < n) & test(users[0]))
        | ((1 < n) & test(users[1]))
        | ((2 < n) & test(users[2]))
        | ((3 < n) & test(users[3]))
}

// Is the family one of the entry's user families?
pub fn has_user(e: Entry, family: u32) -> bool
    ensures { result ≡ has_user e family }
{
    any_user(e, |f| f == family)
}

// By the flag for the family, or as a user family.
#[tactic(auto, unfolding(crate::specs::Settings::accepts))]
pub fn accepts_family(e: Entry, family: u32) -> bool
    ensures { result ≡ accepts e family }
{
    ((family == Family::DATA) & e.data)
        | ((family == Family::ARM_S) & e.arm_s)
        | ((family == Family::RISCV) & e.riscv)
        | ((family == Family::ARM_NS) & e.arm_ns)
        | has_user(e, family)
}

pub fn reserved(family: u32) -> bool
    ensures { result ≡ is_reserved family }
{
    (Family::RP2040 <= family) & (family <= Family::ARM_NS)
}

fn reserved_user(e: Entry) -> bool
    ensures { result ≡ reserved_user e }
{
    any_user(e, |f| reserved(f))
}

// Is an entry wrong by itself?
#[tactic(auto, unfolding(crate::specs::Parts::alone_bad))]
pub fn alone_bad(e: Entry, flash_len: usize) -> bool
    ensures { result ≡ alone_bad flash_len e }
{
    let past = (e.first as usize + e.sectors as usize) * Flash::SECTOR;
    (e.sectors == 0) | (flash_len < past) | (Entry::USERS < e.user_count) | reserved_user(e)
}

// The index that an entry's link names, 0 where it names none.
pub fn target(e: Entry) -> u8
    ensures { result ≡ link_target e.link }
{
    e.link.index()
}

pub fn is_enabled(settings: Settings, arch: Arch) -> bool
    ensures { result ≡ enabled settings arch }
{
    match arch {
        Arch::Arm => settings.arm,
        Arch::RiscV => settings.riscv,
    }
}
