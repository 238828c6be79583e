// One entry of the packed store of settings, written to 22 bytes.
ghost use Rattle.std.specs.Prelude.{◌≡◌, ◌+◌, ◌*◌, ◌<◌};
ghost use Rattle.store_entry.specs.EntryBits.{slot, packed_entry};

use partitions::Entry;

// User family k, or 0 in a slot that is not used.
#[tactic(auto, unfolding(crate::specs::EntryBits::slot))]
fn slot_of(e: Entry, k: usize) -> u32
    requires { k < 4 }
    ensures { result ≡ slot e k }
{
    let n = e.user_count;
    let users = e.users;
    if k < n as usize { users[k] } else { 0 }
}

// The first 33 bits: sectors and link.
fn lead(first: u64, sectors: u64, kind: u64, index: u64) -> u64
    requires { (first < 8192) × (sectors < 16384) × (kind < 4) × (index < 16) }
    ensures { (result ≡ first * 1048576 + sectors * 64 + kind * 16 + index) × (result < 8589934592) }
{
    first * 1048576 + sectors * 64 + kind * 16 + index
}

// The next 9: what is accepted, what is not bootable, and the user count.
fn marks(a: u64, b: u64, c: u64, d: u64, e: u64, f: u64, n: u64) -> u64
    requires { (a < 2) × (b < 2) × (c < 2) × (d < 2) × (e < 2) × (f < 2) × (n < 8) }
    ensures { (result ≡ a * 256 + b * 128 + c * 64 + d * 32 + e * 16 + f * 8 + n) × (result < 512) }
{
    a * 256 + b * 128 + c * 64 + d * 32 + e * 16 + f * 8 + n
}

// The bytes of an entry. A number that is too large for its field is kept to the field's width; those of good settings are not.
pub fn pack(e: Entry) -> [u8; 22]
    ensures { result ≡ packed_entry e }
{
    let link = e.link;
    let first = e.first as u64;
    let sectors = e.sectors as u64;
    let users = e.user_count as u64;
    let h = lead(
        first % 8192,
        sectors % 16384,
        u64::from(link.kind()),
        u64::from(link.index()) % 16,
    );
    let m = marks(
        u64::from(e.data),
        u64::from(e.arm_s),
        u64::from(e.riscv),
        u64::from(e.arm_ns),
        u64::from(e.not_bootable_arm),
        u64::from(e.not_bootable_riscv),
        users % 8,
    );
    crate::chunk_bits::write(
        h * 512 + m,
        slot_of(e, 0),
        slot_of(e, 1),
        slot_of(e, 2),
        slot_of(e, 3),
        // "don't restart", and five zeros
        u64::from(e.no_restart) * 32,
    )
}
